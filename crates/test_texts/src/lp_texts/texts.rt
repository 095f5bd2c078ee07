// Texts with what each means in short, or the line and the kind of its first fault.

/// Lines of an answer and a text, with ` @ ` between them and `|` for each line feed of the text. An answer is a model as
/// `short` writes it, or the line and the kind of the first fault. Other lines are headings.
pub const TEXTS: &str = "\
# A whole text, and the same with one line changed.
max -3 x -2 y; c1: 2 x 1 y <= 5; c2: 1 x 3 y <= 7; x 0..3; y 0..3 @ Maximize|obj: 3 x + 2 y|Subject To|c1: 2 x + y <= 5|c2: x + 3 y <= 7|Bounds|x <= 3|y <= 3|Generals|x y|End|
max -3 x -2 y; c1: 2 x 1 y <= 5; c2: 1 x 3 y <= 7; x 0..3; y 0..3 @ Maximize|obj: 3 x + 2 y|Subject To|c1: 5 >= 2 x + y|c2: x + 3 y <= 7|Bounds|x <= 3|y <= 3|Generals|x y|End|
max -3 x -2 y; c1: 1 x >= 1; c2: 1 x 3 y <= 7; x 0..3; y 0..3 @ Maximize|obj: 3 x + 2 y|Subject To|c1: 1 <= x|c2: x + 3 y <= 7|Bounds|x <= 3|y <= 3|Generals|x y|End|
max -3 x -2 y; c1: 1 x 1 y in 1..5; c2: 1 x 3 y <= 7; x 0..3; y 0..3 @ Maximize|obj: 3 x + 2 y|Subject To|c1: 1 <= x + y <= 5|c2: x + 3 y <= 7|Bounds|x <= 3|y <= 3|Generals|x y|End|
12 NoEnd @ Maximize|obj: 3 x + 2 y|Subject To|c1: 2 x + y <= 5|c2: x + 3 y <= 7|Bounds|x <= 3|y <= 3|Generals|x y||
5 RowTwice @ Maximize|obj: 3 x + 2 y|Subject To|c2: 2 x + y <= 5|c2: x + 3 y <= 7|Bounds|x <= 3|y <= 3|Generals|x y|End|
2 Feature @ Maximize|obj: 3 x ^ 2|Subject To|c1: 2 x + y <= 5|c2: x + 3 y <= 7|Bounds|x <= 3|y <= 3|Generals|x y|End|
2 Crossed @ Maximize|obj: 3 x + 2 y|Subject To|c1: 2 x + y <= 5|c2: x + 3 y <= 7|Bounds|x <= -1|y <= 3|Generals|x y|End|
4 TooLarge @ Maximize|obj: 3 x + 2 y|Subject To|c1: x <= 4611686018427387904|c2: x + 3 y <= 7|Bounds|x <= 3|y <= 3|Generals|x y|End|
2 Unbounded @ Maximize|obj: 3 x + 2 y|Subject To|c1: 2 x + y <= 5|c2: x + 3 y <= 7|Bounds|x <= 1e20|y <= 3|Generals|x y|End|
2 NotWhole @ Maximize|obj: 1.5 x + 3.0 y|Subject To|c1: 2 x + y <= 5|c2: x + 3 y <= 7|Bounds|x <= 3|y <= 3|Generals|x y|End|
# Small whole texts.
min @ min|st|end
max @ max|obj:|st|end
min 3 @ min|obj: 3|st|end|
max 2 @ max|3 - 5|st|end|
min 1 x; c1: -1 x >= -2; x -1..5 @ min|x|st|- x >= -2|Bounds|-1 <= x <= 5|gen|x|end|
max -3 x; x 0..1 @ max|3|x|st|bin|x|end
max -2 x; x 0..1 @ max|- - 2 x|st|bin|x|end|
min 1 x 1 off; c1: 1 x 1 off >= 1; x 0..1; off 1..1 @ min|x + off|st|x + off >= 1|Bounds|off = 1|Binaries|x|End|
min 1 x; c1: 2 x <= 3; x 0..1 @ min|x|st|x + x <= 3|bin|x|end|
min 1 y; c1: 1 y >= 1; x 0..1; y 0..1 @ min|x - x + y|st|0 x + y >= 1|bin|x y|end|
min; b: 1 y 1 x >= 1; c2: 1 y >= 0; y 0..1; x 0..1; z 0..1 @ min|st|b: y + x >= 1|y >= 0|bin|x y z|end|
# Number-first rows and rows between two numbers.
min 1 x; c1: 1 x -1 y in 2..5; x 0..1; y 0..1 @ min|x|st|2 <= x|- y <= 5|bin|x y|end|
5 Syntax @ min|x|st|2 <= x|- y >= -3|bin|x y|end|
min 1 x; c1: 1 x >= 2; c2: -1 y <= 5; x 0..1; y 0..1 @ min|x|st|x >= 2|- y <= 5|bin|x y|end|
min 1 x; c1: 1 x in 0..5; c2: -1 y <= 5; x 0..1; y 0..1 @ min|x|st|0 <= x <= 5|- y <= 5|bin|x y|end|
min 1 x; c1: 1 x in -2..5; c2: 1 y = 3; x 0..1; y 0..1 @ min|x|st|5 >= x >= -2 3 = y|bin|x y|end|
min 1 x; c1: 1 x in 5..2; x 0..1 @ min|x|st|5 <= x <= 2|bin|x|end|
min 1 x; r: -1 x in 2..-1; s: 1 x <= 1; x 0..1 @ min|x|st|r: - - 2 =< + - x =< - 1 s: 1 => x|bin|x|end|
5 Syntax @ min|x|st|2 = x|<= 5|bin|x|end|
5 Syntax @ min|x|st|2 <= x|= 5|bin|x|end|
5 Syntax @ min|x|st|2 <= x|>= 1|bin|x|end|
4 Syntax @ min|x|st|x <= 5 <= y|bin|x y|end|
5 Syntax @ min|x|st|x <= 5|>= 2|bin|x|end|
5 Syntax @ min|x|st|2 <= 3|end|
5 Syntax @ min|x|st|2 <= 3 x <=|y|end|
min 1 x; c1: 1 x >= 2; c2: 1 y >= 0; c3: 1 x >= 1; c4: 2 y <= 2; x 0..1; y 0..1 @ min|x|st|2 <= x y >= 0 1 <= x 2 y <= 2|bin|x y|end|
5 Syntax @ min|x|st|2 <=|end|
5 Syntax @ min|x|st|2 x <= 3 x|end|
# Bounds: infinities, free names, overriding, and what agrees.
min; free 0..1 @ min|st|bounds|0 <= free <= 1|gen|free|end|
min; x 2..4 @ min|st|bounds|x <= 5|x >= 2 x <= 4|gen|x|end|
min; x -5..-1 @ min|st|bounds|-5 <= x <= -1|gen|x|end|
min; x 1..5; y 2..2; z -3..-3 @ min|st|bounds|5 >= x >= 1|2 = y z = - 3|gen|x|end|
min; x -2..7 @ min|st|bounds|x >= -2|x < 7|gen|x|end|
min; x 3..9 @ min|st|bounds|3 <= x x <= 9|gen|x|end|
min; x -4..4 @ min|st|bounds|- + inf < x < - - 4|x > -4|gen|x|end|
4 Unbounded @ min|st|bounds|x free|-1e20 <= x|x <= 1|gen|x|end|
min; x 3..3; free 4..4 @ min|st|bounds|3 <= x free <= 4|x <= 3 free >= 4|end|
min; free 0..1; FREE 0..0 @ min|st|bounds|free free|free <= 1 FREE = 0 free >= 0|gen|free|end|
min; x 0..1 @ min|st|bounds|x <= 1 inf >= x|x >= -INFINITY|x >= 0|x <= 1|gen|x|end|
5 Syntax @ min|st|bounds|1 <= x|>= 3|gen|x|end|
5 Syntax @ min|st|bounds|1 = x|= 3|end|
5 Syntax @ min|st|bounds|1 <= x <=|gen|end|
4 Syntax @ min|st|bounds|x <= y|end|
5 Syntax @ min|st|bounds|x <= 3|<= 4|end|
5 Syntax @ min|st|bounds|x free|<= 4|end|
5 Syntax @ min|st|bounds|x <= 5|2 x <= 3|end|
5 Syntax @ min|st|bounds|x|: x <= 3|end|
4 Syntax @ min|st|bounds|3 <= inf|end|
5 Syntax @ min|st|bounds|inf|free|end|
5 Syntax @ min|st|bounds|x|1e20|end|
5 TooLarge @ min|st|bounds|x|5e18|end|
4 TooLarge @ min|st|x|1e20|end|
3 Syntax @ min|x|bounds|x <= 1e20|st|end|
2 TooLarge @ min|1e20 x|st|end|
4 Unbounded @ min|st|bounds|x >= 1e20|gen|x|end|
4 Crossed @ min|st|bounds|x >= 1e20|x <= 3|gen|x|end|
4 Crossed @ min|st|bounds|x >= 1e20|bin|x|end|
4 Crossed @ min|st|bounds|x <= -inf|gen|x|end|
4 TooLarge @ min|st|bounds|x = 99999999999999999999|end|
4 Unbounded @ min|st|bounds|x = 100000000000000000000|gen|x|end|
min; x 4611686018427387902..4611686018427387903 @ min|st|bounds|x <= 4611686018427387903|x >= 4611686018427387902|gen|x|end|
# Words for infinities and `free` outside bounds; `end` and other words inside a line are names.
min 1 inf 1 infinity 1 free 2 end; c1: 1 inf 1 x >= 0; inf 0..1; infinity 0..1; free 0..1; end 0..1; x 0..1 @ min|inf + infinity + free + 2 end|st|x + inf >= 0|bin|inf infinity free end x|end|
6 Unbounded @ min|st|bounds|x <= 1|gen|x inf|bounds|y = 1|end|
min 1 x; r: 1 end >= 0; x 0..1; end 0..1 @ min|x|st|r: end >= 0|bin|x end|end|
2 Syntax @ min|end|: x|st|end|
min; end: 1 x >= 0; x 0..1 @ min|st|end : x >= 0|bin|x|end|
2 Syntax @ min|x end|st|end|
# Section words in any case of letters, at the head of a line, before no colon.
max -1 x; c1: 1 x >= 0; x 0..1 @ MAXIMUM|x|sUcH\t \rThAt|x >= 0|BINARY|x|eNd x|
min 1 x; c1: 1 x >= 0; x 0..1 @   mInImUm x|\tS.T. x >= 0| bIn x| End
min 1 x; c1: 1 x >= 0; x 0..2 @ minimize|obj: x|st. x >= 0|bound x <= 2|integer x|end|
max -1 x; x 2..2 @ Max|st:|x|subject \t to|int x|bounds|x = 2|end|
3 Syntax @ min|x|Subject To: x >= 0|end|
4 Syntax @ min|x|st|subject to|end|
3 Syntax @ min|x|subject|to|end|
3 Syntax @ min|x|subject to : x >= 0|st|end|
4 Syntax @ min|x|st|subject to >= 0|end|
3 Syntax @ min|st|x bin >= 0|end|
3 Unbounded @ min|st|y + bin >= 0|bin|bin y|end|
3 RowTwice @ min|st|bin: x >= 0 bin : x >= 1|bin|x|end|
4 Syntax @ min|st|bin|: x >= 0|end|
min; bin: 1 x >= 0; x 0..1 @ min|st|bin \t: x >= 0|bin|x|end|
3 Syntax @ min|st|bin\r: x >= 0|end|
3 Syntax @ min|st|min|end|
1 Syntax @ st|end|
1 Unbounded @ max min|st|end|
min @ \\ c|min \\ c|\\ c|st|end|
min; x 1..1; y 2..2 @ min|st|gen x|generals|integers y|bounds x = 1 y = 2|binaries|end|
# Comments hold any bytes; carriage returns are white space; nothing behind `end` is read.
min 1 x; x 0..1 @ min \\ \x01 x ^ 2 \x7f|obj: x \\ + y|st \\|bin \\ x|x\\|end|
min 1 x; c1: 1 x >= 0; x 0..1 @ min\r|obj: x\r|st\r|x >= 0\r|bin\r|x\r|end\r|
2 Syntax @ min|x\r- y\rst|st|end|
min @ min|st|end|\x01 [ 1.5 is not read
min @ min|st|end\\|\x01
min @ min|st|end\\
1 NoEnd @ \\
1 NoEnd @ 
3 NoEnd @ ||
2 Syntax @ \\ min|st|end|
# Forms of numbers.
min 3 x 5 y 2 z; x 0..1; y 0..1; z 0..1 @ min|3. x + .5e1 y + 20e-1 z|st|bin|x y z|end|
2 Syntax @ min|3 e2 + 3e2 e + 3e x + 3e+ y|st|bin|e2 e x y|end|
min 3 e2 3 e 4; e2 0..1; e 0..1 @ min|3 e2 + 3e + 4|st|bin|e2 e|end|
min 7 x; x 0..1 @ min|0e99999999999 x + 007 x|st|bin|x|end|
2 TooLarge @ min|1e99999999999 x|st|end|
2 NotWhole @ min|1e-99999999999 x|st|end|
min 27 x; x 0..1 @ min|0.0e-99999999999 x + 1.50E+01 x + 120e-1 x|st|bin|x|end|
min 12500 x 1 y; x 0..1; y 0..1 @ min|12.5e3 x + 10000000000000000000000e-22 y|st|bin|x y|end|
2 NotWhole @ min|1e-99999999999999999999999 x|st|end|
2 NotWhole @ min|.10e0 x|st|end|
2 TooLarge @ min|4611686018427387904 x|st|end|
2 TooLarge @ min|0.00001e25 x|st|end|
2 NotWhole @ min|2e-1 x|st|end|
2 NotWhole @ min|.5|st|end|
2 NotWhole @ min|1.5e0|st|end|
min 125 x; x 0..1 @ min|12.50e1 x|st|bin|x|end|
2 BadByte @ min|. x|st|end|
2 BadByte @ min|.e3|st|end|
2 NotWhole @ min|1..5 x|st|end|
2 NotWhole @ min|1.5.5 x|st|end|
min 3 x; x 0..1 @ min|3.x|st|bin|x|end|
2 BadByte @ min|1 .x|st|end|
min 1 x.5 2 x.; x.5 0..1; x. 0..1 @ min|x.5 + 2x.|st|bin|x.5 x.|end|
min 4611686018427387903 @ min|4611686018427387903|st|end|
2 TooLarge @ min|4611686018427387904|st|end|
min @ min|4611686018427387903.0e0|- 46116860184273879030e-1|st|end|
2 NotWhole @ min|4611686018427387903.5|st|end|
2 NotWhole @ min|99999999999999999999.5|st|end|
min; x 10..10 @ min|st|bounds|x <= 1e20|x <= 1.5e1|x >= 1e1|x <= 100e-1|end|
4 NotWhole @ min|st|bounds|x <= 123456789012345678901.5|end|
min; c1: 1 x >= 100000; x 0..1 @ min|st|x >= 1e5|bin|x|end|
# Marks and other bytes.
min; c1: 1 x <= 1; c2: 1 x >= 0; c3: 1 x <= 1; c4: 1 x >= 0; c5: 1 x = 1; x 0..1 @ min|st|x=<1 x=>0 x<1 x>0 x=1|bin|x|end|
3 Syntax @ min|st|x = < 1|end|
3 Syntax @ min|st|x < = 1|end|
3 Syntax @ min|st|x <== 1|end|
3 Feature @ min|st|x ->= 1|end|
min; c1: 1 x >= -1; x 0..1 @ min|st|x >- 1|bin|x|end|
3 Syntax @ min|st|x <>|1|end|
2 Feature @ min|x*2|st|end|
2 Feature @ min|x^2|st|end|
2 Feature @ min|[ x ]|st|end|
3 Feature @ min|st|x = 1 -> y = 1|end|
min 1 !a\"$%&(),.;?@_`'{}~/; !a\"$%&(),.;?@_`'{}~/ 0..1 @ min|!a\"$%&(),.;?@_`'{}~/|st|bin|!a\"$%&(),.;?@_`'{}~/|end|
2 BadByte @ min|x\x00|st|end|
2 BadByte @ min|é|st|end|
3 BadByte @ min|st|\x7f|end|
3 BadByte @ min|st|x <= 1\x0c|end|
# Faults of syntax at the first token with which no text goes on.
1 Syntax @ x|min|st|end|
2 Syntax @ min|x y|st|end|
3 Syntax @ min|x +|st|end|
3 Syntax @ min|- +|st|end|
2 Syntax @ min|o: p: x|st|end|
2 Syntax @ min|o: 3 4|st|end|
2 Syntax @ min|x <= 3|st|end|
3 Syntax @ min|x|bounds|st|end|
3 Syntax @ min|x|end|
2 Syntax @ min|:|st|end|
4 Syntax @ min|st|x|end|
3 Syntax @ min|st|x + 3 <= 5|end|
3 Syntax @ min|st|: x >= 0|end|
3 Syntax @ min|st|r: s: x >= 0|end|
4 Syntax @ min|st|r:|end|
4 Syntax @ min|st|x >=|end|
3 Syntax @ min|st|x >= - y|end|
4 Syntax @ min|st|x >= 0 + y|bin|x y|end|
4 Syntax @ min|st|+ + -|<= 3|end|
3 Syntax @ min|st|3 4 x >= 0|end|
5 Syntax @ min|st|bin|x|3|end|
5 Syntax @ min|st|bin|x|+ y|end|
5 Syntax @ min|st|bin|x|: y|end|
4 Syntax @ min|st|bin|st|end|
4 Syntax @ min|st|bounds|max|end|
4 Syntax @ min|st|gen|x <= 3|end|
# Sections that are not supported.
3 Feature @ min|st|sos1|end|
3 Feature @ min|st|SEMI|x|end|
1 Feature @ sos|end|
3 Feature @ min|st|lazy  constraints|end|
3 Feature @ min|st|user\tcuts|end|
4 Syntax @ min|st|lazy|constraints|end|
4 Feature @ min|st|bin|semis|end|
4 Syntax @ min|pwlobj: x|st|x sos2 >= 0|end|
min 1 x; c1: 1 x 1 sos2 >= 0; x 0..1; sos2 0..1 @ min|pwlobj: x|st|x + sos2 >= 0|bin|x sos2|end|
# Names of rows, written and given.
4 RowTwice @ min|st|c2: x >= 0|x >= 0|bin|x|end|
4 RowTwice @ min|st|x >= 0|c1: x >= 0|bin|x|end|
min; c1: 1 x >= 0; c2: 1 x >= 0; c3: 1 x >= 0; c01: 1 x >= 0; C1: 1 x >= 0; x 0..1 @ min|st|c1: x >= 0|x >= 0|c3: x >= 0|c01: x >= 0|C1: x >= 0|bin|x|end|
5 RowTwice @ min|st|c3: x >= 0|x >= 0|2|<= x|bin|x|end|
4 RowTwice @ min|st|c1: x >= 0|c1:
4 NoEnd @ min|st|c1: x >= 0|c1
4 RowTwice @ min|st|c2: x >= 0|c1
4 RowTwice @ min|st|c2: x >= 0|3
4 RowTwice @ min|st|c2: x >= 0|-
4 RowTwice @ min|st|c2: x >= 0|- -|x >= 0|end|
3 RowTwice @ min|st|x: x >= 0 x: x >= 0|end|
min 1 x; x: 1 x >= 0; x 0..1 @ min|x: x|st|x: x >= 0|bin|x|end|
min 1 x; y: 1 x >= 0; c2: 1 x 1 z >= 0; x 0..1; z 0..1 @ min|y: x|st|y: x >= 0|x + z >= 0|bin|x z|end|
4 RowTwice @ min|st|c2: x >= 0|x|^|end|
4 NotWhole @ min|st|c2: x >= 0|1.5 x >= 0|end|
# A number is a constant only where no name follows.
max -3 x 5 y -4; x 0..1; y 0..1 @ max|3|x|+ 4 - 5|y|st|bin|x y|end|
3 Syntax @ min|3|max|st|end|
min 3 @ min|3|st|end|
5 Syntax @ min|3 st|st|bin|st|end|
min -7 @ min|- 3 + - 4|st|end|
# Bounds that no model has, at the variable's first occurrence.
3 Unbounded @ min|st|y: x >= 0|bounds|x free|gen|x|end|
3 Unbounded @ min||x|st|gen|x|end|
6 Continuous @ min|st|bounds|y = 0||x <= 3|y <= 0|end|
6 Unbounded @ min|st|bin|y|gen|x y|end|
4 Crossed @ min|st|bounds|x = -1|bin|x|end|
min; x 1..1 @ min|st|bounds|x = 1|bin|x|end|
min; x 0..1 @ min|st|bin|x|bounds|x >= 1|x free|end|
4 Unbounded @ min|st|bounds|x free|end|
4 Crossed @ min|st|bounds|x <= -1|end|
4 Crossed @ min|st|bounds|1 <= x <= 0|bin|x|end|
4 Continuous @ min|st|bounds|0 <= x <= 1|end|
min; x 0..0 @ min|st|bounds|-0 <= x <= 0|end|
# Sums that may pass 2^62 - 1, at the objective's word or the row's first token.
min 4611686018427387903 x; x 0..1 @ min|4611686018427387903 x|st|bin|x|end|
2 Activity @ |min|4611686018427387903 x + 1|st|bin|x|end|
min 4611686018427387902 x; x 0..1 @ min|4611686018427387903 x - 1 x|st|bin|x|end|
1 Activity @ min|4611686018427387903 x + 1 x|st|bin|x|end|
min 5 @ min|4611686018427387903 - 4611686018427387903 + 5|st|end|
max -4611686018427387903 x; x 0..0 @ max|4611686018427387903 x|st|bounds|x = 0|end|
1 Activity @ min|2305843009213693952 x|st|bounds|-2 <= x <= 1|gen|x|end|
min 2305843009213693951 x; x -2..1 @ min|2305843009213693951 x|st|bounds|-2 <= x <= 1|gen|x|end|
max -1 x; c1: 2305843009213693951 x <= 2305843009213693952; x 0..1 @ max|x|st|2305843009213693951 x <= 2305843009213693952|bin|x|end|
4 Activity @ max|x|st|r:|2305843009213693951 x <= 2305843009213693953|bin|x|end|
4 Activity @ max|x|st|x >= 0 0 <= x|<= 4611686018427387903|bin|x|end|
min; c1: 1 x in -4611686018427387902..1; x 0..1 @ min|st|- 4611686018427387902 <= x <= 1|bin|x|end|
5 Activity @ min|st|x >= 0||- 4611686018427387903 <= x <= 1|bin|x|end|
1 Activity @ min|4611686018427387903 x + y|st|4611686018427387903 x + y >= 0|bin|x y|end|
# Two faults: the earlier token's stands, but no token's before a byte that begins none.
2 BadByte @ min|x \x01|st|1.5 x >= 0|bin|x|end|
2 BadByte @ min|x \x01|st|5e18 x >= 0|bin|x|end|
2 BadByte @ min|x \x01|st|x x|bin|x|end|
2 BadByte @ min|x \x01|st|x * 2|bin|x|end|
4 BadByte @ min|1.5 x|st|x \x01|bin|x|end|
2 NotWhole @ min|1.5 x|st|5e18 x >= 0|bin|x|end|
2 NotWhole @ min|1.5 x|st|x x|bin|x|end|
2 NotWhole @ min|1.5 x|st|x * 2|bin|x|end|
4 BadByte @ min|5e18 x|st|x \x01|bin|x|end|
2 TooLarge @ min|5e18 x|st|1.5 x >= 0|bin|x|end|
2 TooLarge @ min|5e18 x|st|x x|bin|x|end|
2 TooLarge @ min|5e18 x|st|x * 2|bin|x|end|
4 BadByte @ min|x x|st|x \x01|bin|x|end|
2 Syntax @ min|x x|st|1.5 x >= 0|bin|x|end|
2 Syntax @ min|x x|st|5e18 x >= 0|bin|x|end|
2 Syntax @ min|x x|st|x * 2|bin|x|end|
4 BadByte @ min|x ^ 2|st|x \x01|bin|x|end|
2 Feature @ min|x ^ 2|st|1.5 x >= 0|bin|x|end|
2 Feature @ min|x ^ 2|st|5e18 x >= 0|bin|x|end|
2 Feature @ min|x ^ 2|st|x x|bin|x|end|
# With a row's name that comes twice; without `end`.
6 BadByte @ min|x|st|r: x >= 0|r: x >= 0|x \x01|bin|x|end|
5 BadByte @ min|x|st|r: x >= 0|x \x01|r: x >= 0|bin|x|end|
5 RowTwice @ min|x|st|r: x >= 0|r: x >= 0|1.5 x >= 0|bin|x|end|
5 NotWhole @ min|x|st|r: x >= 0|1.5 x >= 0|r: x >= 0|bin|x|end|
5 RowTwice @ min|x|st|r: x >= 0|r: x >= 0|5e18 x >= 0|bin|x|end|
5 TooLarge @ min|x|st|r: x >= 0|5e18 x >= 0|r: x >= 0|bin|x|end|
5 RowTwice @ min|x|st|r: x >= 0|r: x >= 0|x x|bin|x|end|
5 Syntax @ min|x|st|r: x >= 0|x x|r: x >= 0|bin|x|end|
5 RowTwice @ min|x|st|r: x >= 0|r: x >= 0|x * 2|bin|x|end|
5 Feature @ min|x|st|r: x >= 0|x * 2|r: x >= 0|bin|x|end|
4 BadByte @ min|x|st|x \x01|bin|x|
4 NotWhole @ min|x|st|1.5 x >= 0|bin|x|
4 TooLarge @ min|x|st|5e18 x >= 0|bin|x|
4 Syntax @ min|x|st|x x|bin|x|
4 Feature @ min|x|st|x * 2|bin|x|
5 RowTwice @ min|x|st|r: x >= 0|r: x >= 0|bin|x|
# A variable's fault stands behind every token's; of two variables the first one's; on one variable crossed, unbounded, continuous.
4 BadByte @ min|u|st|x \x01|bounds|u free|gen u|end|
4 NotWhole @ min|u|st|1.5 x >= 0|bounds|u free|gen u|end|
4 TooLarge @ min|u|st|5e18 x >= 0|bounds|u free|gen u|end|
4 Syntax @ min|u|st|x x|bounds|u free|gen u|end|
4 Feature @ min|u|st|x * 2|bounds|u free|gen u|end|
5 RowTwice @ min|u|st|r: u >= 0|r: u >= 0|bounds|u free|gen u|end|
7 NoEnd @ min|u|st|bounds|u free|gen u|
4 BadByte @ min|k|st|x \x01|bounds|k <= 3|end|
4 NotWhole @ min|k|st|1.5 x >= 0|bounds|k <= 3|end|
4 TooLarge @ min|k|st|5e18 x >= 0|bounds|k <= 3|end|
4 Syntax @ min|k|st|x x|bounds|k <= 3|end|
4 Feature @ min|k|st|x * 2|bounds|k <= 3|end|
5 RowTwice @ min|k|st|r: k >= 0|r: k >= 0|bounds|k <= 3|end|
6 NoEnd @ min|k|st|bounds|k <= 3|
4 BadByte @ min|d|st|x \x01|bounds|d >= 3 d <= 2|end|
4 NotWhole @ min|d|st|1.5 x >= 0|bounds|d >= 3 d <= 2|end|
4 TooLarge @ min|d|st|5e18 x >= 0|bounds|d >= 3 d <= 2|end|
4 Syntax @ min|d|st|x x|bounds|d >= 3 d <= 2|end|
4 Feature @ min|d|st|x * 2|bounds|d >= 3 d <= 2|end|
5 RowTwice @ min|d|st|r: d >= 0|r: d >= 0|bounds|d >= 3 d <= 2|end|
6 NoEnd @ min|d|st|bounds|d >= 3 d <= 2|
2 Unbounded @ min|u|+ k|st|bounds|k <= 3|u free|gen u|end|
2 Unbounded @ min|u|+ d|st|bounds|d >= 3 d <= 2|u free|gen u|end|
2 Continuous @ min|k|+ u|st|bounds|u free|k <= 3|gen u|end|
2 Continuous @ min|k|+ d|st|bounds|d >= 3 d <= 2|k <= 3|end|
2 Crossed @ min|d|+ u|st|bounds|u free|d >= 3 d <= 2|gen u|end|
2 Crossed @ min|d|+ k|st|bounds|k <= 3|d >= 3 d <= 2|end|
2 Crossed @ min|x|st|bounds|x >= inf|x <= 3|end|
2 Unbounded @ min|x|st|bounds|x >= -inf|x <= 3|end|
2 Crossed @ min|x|st|bounds|x >= 4|x <= 3|end|
# Sums stand last: the objective's, then the rows'.
4 BadByte @ min|4611686018427387903 x + x|st|x \x01|bin|x|end|
4 NotWhole @ min|4611686018427387903 x + x|st|1.5 x >= 0|bin|x|end|
4 TooLarge @ min|4611686018427387903 x + x|st|5e18 x >= 0|bin|x|end|
4 Syntax @ min|4611686018427387903 x + x|st|x x|bin|x|end|
4 Feature @ min|4611686018427387903 x + x|st|x * 2|bin|x|end|
5 RowTwice @ min|4611686018427387903 x + x|st|r: x >= 0|r: x >= 0|bin|x|end|
6 NoEnd @ min|4611686018427387903 x + x|st|bin|x|
2 Unbounded @ min|4611686018427387903 u + u|st|bounds|u free|gen u|end|
4 Unbounded @ min|x|st|4611686018427387903 x + u >= 0|bounds|u free|bin|x|gen u|end|
2 Continuous @ min|4611686018427387903 k + k|st|bounds|k <= 3|end|
4 Continuous @ min|x|st|4611686018427387903 x + k >= 0|bounds|k <= 3|bin|x|end|
2 Crossed @ min|4611686018427387903 d + d|st|bounds|d >= 3 d <= 2|end|
4 Crossed @ min|x|st|4611686018427387903 x + d >= 0|bounds|d >= 3 d <= 2|bin|x|end|
5 Activity @ min|x|st|x >= 0|4611686018427387903 x + x >= 0|bin|x|end|
1 Activity @ min|4611686018427387903 x + x|st|4611686018427387903 x + x >= 0|bin|x|end|
4 Activity @ min|x|st|4611686018427387903 x + x >= 0|4611686018427387903 x + x >= 0|bin|x|end|
";

/// Lines of an answer, a count, a front, a piece and a back, with ` @ ` between them and `|` for each line feed. The text is
/// the front, the piece so many times with its number for each `#`, and the back. Other lines are headings.
pub const SIZES: &str = "\
# Variables, at most 4,096.
4095 variables, 0 rows @ 4095 @ min|st|bin| @ v#| @ end|
4096 variables, 0 rows @ 4096 @ min|st|bin| @ v#| @ end|
4100 Limit @ 4097 @ min|st|bin| @ v#| @ end|
4098 Limit @ 4097 @ min| @ + v#| @ st|end|
4096 variables, 0 rows @ 4096 @ min|st|bounds| @ v# = 0| @ v1 = 0|end|
4100 Limit @ 4096 @ min|st|bounds| @ v# = 0| @ 0 <= w|end|
1 variables, 0 rows @ 4097 @ min|st|bin| @ x| @ end|
4101 Limit @ 4096 @ min|st|bin| @ v#| @ |w
# Rows, at most 8,192. One too many counts at its first token.
1 variables, 8191 rows @ 8191 @ min|st| @ x >= 0| @ bin|x|end|
1 variables, 8192 rows @ 8192 @ min|st| @ x >= 0| @ bin|x|end|
8195 Limit @ 8193 @ min|st| @ x >= 0| @ bin|x|end|
1 variables, 8192 rows @ 8192 @ min|st| @ r#: 0 <= x| @ bin|x|end|
16387 Limit @ 8193 @ min|st| @ r#:|x >= 0| @ bin|x|end|
8195 Limit @ 8192 @ min|st| @ x >= 0| @ x
8196 Limit @ 8192 @ min|st| @ x >= 0| @ |-
8195 RowTwice @ 8192 @ min|st| @ x >= 0| @ c1: x >= 0|end|
8195 NotWhole @ 8192 @ min|st| @ x >= 0| @ 1.5 x >= 0|end|
# Terms of the objective and the rows, at most 65,536. One too many stands at its name, a constant at its number.
1 variables, 0 rows @ 65535 @ min| @ + x| @ st|bin|x|end|
1 variables, 0 rows @ 65536 @ min| @ + x| @ st|bin|x|end|
65538 Limit @ 65537 @ min| @ + x| @ st|bin|x|end|
65538 Limit @ 65537 @ min| @ + 1| @ st|bin|x|end|
131075 Limit @ 65537 @ min| @ + 0|x| @ st|bin|x|end|
1 variables, 0 rows @ 65536 @ min| @ + 0|x| @ st|bin|x|end|
1 variables, 8192 rows @ 8192 @ min|st| @ x+x+x+x+x+x+x+x >= 0| @ bin|x|end|
16387 Limit @ 8192 @ min|x|st| @ x+x+x+x+x+x+x|+x >= 0| @ bin|x|end|
1 variables, 8192 rows @ 8192 @ min|st| @ r#: 2 <= x+x+x+x+x+x+x+x <= 3| @ bin|x|end|
65539 Limit @ 65536 @ min|o:| @ + x| @ + 1 ^|st|end|
# Names of at most 255 characters.
1 variables, 0 rows @ 254 @ min| @ n @ : x|st|bin|x|end|
1 variables, 0 rows @ 255 @ min| @ n @ : x|st|bin|x|end|
2 LongName @ 256 @ min| @ n @ : x|st|bin|x|end|
2 Unbounded @ 255 @ min|3 @ n @ |st|end|
2 LongName @ 256 @ min|3 @ n @ |st|end|
2 Unbounded @ 254 @ min|3e @ n @ |st|end|
2 LongName @ 255 @ min|3e @ n @ |st|end|
2 LongName @ 256 @ min|3e5 @ n @ |st|end|
2 Unbounded @ 254 @ min|n @ 1 @ |st|end|
2 LongName @ 255 @ min|n @ 1 @ |st|end|
2 TooLarge @ 300 @ min| @ 1 @  x|st|end|
2 NotWhole @ 300 @ min|0. @ 0 @ 1|st|end|
2 NotWhole @ 300 @ min|1e- @ 0 @ 1|st|end|
1 variables, 0 rows @ 300 @ min|1 @ 0 @ e-300 x|st|bin|x|end|
2 BadByte @ 300 @ min|. @ n @ |st|end|
0 variables, 0 rows @ 300 @ min|\\ @ n @ |st|end|
0 variables, 0 rows @ 300 @ min|st|end| @ n @ 
2 Unbounded @ 300 @ min|n @ +n @ |st|end|
# Binary digits of all spans, at most 8,192.
133 variables, 0 rows @ 132 @ min|st| @ bounds|v# <= 4611686018427387903|gen|v#| @ bounds|w <= 127|gen|w|end|
133 variables, 0 rows @ 132 @ min|st| @ bounds|v# <= 4611686018427387903|gen|v#| @ bounds|w <= 255|gen|w|end|
532 Limit @ 132 @ min|st| @ bounds|v# <= 4611686018427387903|gen|v#| @ bounds|w <= 256|gen|w|end|
529 Limit @ 132 @ min|w|st| @ bounds|v# <= 4611686018427387903|gen|v#| @ bounds|w <= 256|gen|w|end|
532 Limit @ 133 @ min|st| @ bounds|v# <= 4611686018427387903|gen|v#| @ end|
532 Limit @ 132 @ min|st| @ bounds|v# <= 4611686018427387903|gen|v#| @ bounds|-128 <= w <= 128|gen|w|end|
# A name too long and another fault: only a byte that begins no token stands before it, where it is earlier.
2 BadByte @ 256 @ min|x \x01|st| @ n @  >= 0|bin|x|end|
4 LongName @ 256 @ min|1.5 x|st| @ n @  >= 0|bin|x|end|
4 LongName @ 256 @ min|5e18 x|st| @ n @  >= 0|bin|x|end|
4 LongName @ 256 @ min|x x|st| @ n @  >= 0|bin|x|end|
4 LongName @ 256 @ min|x ^ 2|st| @ n @  >= 0|bin|x|end|
2 LongName @ 256 @ min| @ n @ |st|x \x01|bin|x|end|
2 LongName @ 256 @ min| @ n @ |st|1.5 x >= 0|bin|x|end|
2 LongName @ 256 @ min| @ n @ |st|5e18 x >= 0|bin|x|end|
2 LongName @ 256 @ min| @ n @ |st|x x|bin|x|end|
2 LongName @ 256 @ min| @ n @ |st|x * 2|bin|x|end|
2 LongName @ 256 @ min| @ n @ |st|r: x >= 0 r: x >= 0|bin|x|end|
2 LongName @ 256 @ min| @ n @ |st|4611686018427387903 x + x >= 0|bin|x|end|
4 LongName @ 256 @ min|st|r: x >= 0 r: x >= 0| @ n @  >= 0|bin|x|end|
4 LongName @ 256 @ min|4611686018427387903 x + x|st| @ n @  >= 0|bin|x|end|
3 LongName @ 256 @ min|st| @ n @  >= 0|
4 LongName @ 256 @ min|x|st| @ n @  >= 0|bounds|x free|gen|x|end|
4 LongName @ 256 @ min|x|st| @ n @  >= 0|bounds|x <= 3|end|
4 LongName @ 256 @ min|x|st| @ n @  >= 0|bounds|x <= -1|end|
# A variable too many and another fault: the earlier token's stands.
2 BadByte @ 4097 @ min|x \x01|st|bin| @ v#| @ end|
2 NotWhole @ 4097 @ min|1.5 x|st|bin| @ v#| @ end|
2 TooLarge @ 4097 @ min|5e18 x|st|bin| @ v#| @ end|
2 Syntax @ 4097 @ min|x x|st|bin| @ v#| @ end|
2 Feature @ 4097 @ min|x ^ 2|st|bin| @ v#| @ end|
4100 BadByte @ 4097 @ min| @ + v#| @ st|x \x01|end|
4098 Limit @ 4097 @ min| @ + v#| @ st|1.5 x >= 0|end|
4098 Limit @ 4097 @ min| @ + v#| @ st|5e18 x >= 0|end|
4098 Limit @ 4097 @ min| @ + v#| @ st|x x|end|
4098 Limit @ 4097 @ min| @ + v#| @ st|x * 2|end|
4098 Limit @ 4097 @ min| @ + v#| @ st|r: x >= 0 r: x >= 0|end|
4098 Limit @ 4097 @ min| @ + v#| @ st|4611686018427387903 x + x >= 0|end|
3 RowTwice @ 4097 @ min|st|r: x >= 0 r: x >= 0|bin| @ v#| @ end|
4100 Limit @ 4097 @ min|4611686018427387903 x + x|st|bin| @ v#| @ end|
4100 Limit @ 4097 @ min|st|bin| @ v#| @ 
4104 Limit @ 4097 @ min|x|st|bounds|x free|gen|x|bin| @ v#| @ end|
4102 Limit @ 4097 @ min|x|st|bounds|x <= 3|bin| @ v#| @ end|
4102 Limit @ 4097 @ min|x|st|bounds|x <= -1|bin| @ v#| @ end|
# A digit too many stands behind every variable's fault and before all sums.
536 Unbounded @ 133 @ min|st| @ bounds|v# <= 4611686018427387903|gen|v#| @ bounds|x free|gen|x|end|
536 Continuous @ 133 @ min|st| @ bounds|v# <= 4611686018427387903|gen|v#| @ bounds|x <= 3|end|
536 Crossed @ 133 @ min|st| @ bounds|v# <= 4611686018427387903|gen|v#| @ bounds|x <= -1|end|
534 Limit @ 133 @ min|4611686018427387903 v1|+ v2|st| @ bounds|v# <= 4611686018427387903|gen|v#| @ end|
534 Limit @ 133 @ min|st|v1 >= 0|v1 >= 2| @ bounds|v# <= 4611686018427387903|gen|v#| @ end|
2 NotWhole @ 133 @ min|1.5 x|st| @ bounds|v# <= 4611686018427387903|gen|v#| @ end|
535 NoEnd @ 133 @ min|st| @ bounds|v# <= 4611686018427387903|gen|v#| @ 
";

/// The same of texts about the greatest size, of blanks behind the end.
pub const BLANKS: &str = "\
0 variables, 0 rows @ 16777204 @ min|st|end| @   @ 
0 variables, 0 rows @ 16777205 @ min|st|end| @   @ 
0 Limit @ 16777206 @ min|st|end| @   @ 
";

/// The same of one comment.
pub const COMMENTS: &str = "\
0 variables, 0 rows @ 16777203 @ min|\\ @ x @ |st|end|
0 Limit @ 16777204 @ min|\\ @ x @ |st|end|
0 Limit @ 16777216 @ \x01 @ x @ 
";

/// The same of texts that are read under the large limits.
pub const LARGE_SIZES: &str = "\
# One more than the usual limits allow of variables, rows, terms and binary digits, and more bytes.
4097 variables, 0 rows @ 4097 @ min|st|bin| @ v#| @ end|
1 variables, 8193 rows @ 8193 @ min|st| @ x >= 0| @ bin|x|end|
1 variables, 0 rows @ 65537 @ min| @ + x| @ st|bin|x|end|
133 variables, 0 rows @ 132 @ min|st| @ bounds|v# <= 4611686018427387903|gen|v#| @ bounds|w <= 256|gen|w|end|
0 variables, 0 rows @ 16777206 @ min|st|end| @   @ 
";
