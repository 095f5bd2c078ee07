// What each kind of refusal means, in words. `%` stands for the token or variable at fault.
use crate::text::Sentences;

/// LP texts. Some kinds have several sentences, told apart by a word behind the kind.
pub const LP: Sentences = Sentences {
    usual: "\
bad-byte @ % begins no number, name or mark; take it out, or put it behind a backslash as a comment
long-name @ the name % has more than 255 characters; give it a shorter one
not-whole @ the number % is not whole; multiply its whole row (or the objective) until all numbers are whole
not-whole-bound @ the number % is not whole; write the next whole number within the bound
too-large @ the number % is past 4611686018427387903 (2^62 - 1); measure in larger units, or divide the row by a common factor
feature @ % belongs to what is not supported: quadratic terms, indicators, semi-continuous variables, SOS, piecewise linear terms, lazy constraints, user cuts; write the model without it
syntax @ % can't stand here
row-twice @ an earlier row has the name % too (a row without a name is called c and its place); give one of them another name
no-end @ the text ends without the word End; write it as the last line, the first word of its line
limit @ the model is too large: 4096 variables, 8192 rows, 65536 terms and 8192 binary digits of the bounds' widths are the most; read it with --large, which takes 524288, 524288, 4194304 and 1048576
limit-size @ the text has more than 16777216 bytes, the most that is read; read it with --large, which takes 268435456, or write a smaller model
limit-variables @ the variable % is one too many: 4096 are the most; read the model with --large, which takes 524288, or write a smaller one
limit-rows @ the row % is one too many: 8192 are the most; read the model with --large, which takes 524288, or write a smaller one
limit-terms @ the term % is one too many: 65536 in the objective and all rows are the most; read the model with --large, which takes 4194304, or write a smaller one
limit-digits @ with the variable % the widths of all bounds have more than 8192 binary digits, the most; read the model with --large, which takes 1048576, or write narrower bounds
crossed @ the lower bound of % is above its upper bound; write both, as in -5 <= x <= -1 (one that is not written is 0)
unbounded @ a variable % without an upper or lower bound; add both under Bounds, as in 0 <= x <= 100
unbounded-above @ % has no upper bound; add one under Bounds, as in x <= 100
unbounded-below @ % has no lower bound; add one under Bounds, as in x >= -100
unbounded-both @ % has no bounds; add both under Bounds, as in -100 <= x <= 100
continuous @ % is under neither Generals nor Binaries, and only whole variables can be solved for; list it under one of them, or count it in tenths: divide its coefficients in rows and costs by ten, multiply its bounds by ten, and list it under Generals; multiply a row or objective by ten whose numbers are then not whole
activity @ the sums of the row or objective % here may pass 4611686018427387903 (2^62 - 1) within the bounds; write smaller numbers, or narrower bounds
",
    large: "\
limit @ the model is too large: 524288 variables, 524288 rows, 4194304 terms and 1048576 binary digits of the bounds' widths are the most
limit-size @ the text has more than 268435456 bytes, the most that is read; write a smaller model
limit-variables @ the variable % is one too many: 524288 are the most; write a smaller model
limit-rows @ the row % is one too many: 524288 are the most; write a smaller model
limit-terms @ the term % is one too many: 4194304 in the objective and all rows are the most; write a smaller model
limit-digits @ with the variable % the widths of all bounds have more than 1048576 binary digits, the most; write narrower bounds
",
};

/// Decompositions.
pub const DEC: Sentences = Sentences {
    usual: "\
bad-byte @ % has a byte that is not printable ASCII; write the name of a row or variable as the model has it
syntax @ % can't stand here
presolved @ PRESOLVED 1 says that the names belong to a presolved model; write a decomposition of the model as it is, with PRESOLVED 0
no-nblocks @ how many blocks there are is told before % and what it lists; write NBLOCKS and their number first
block-number @ the block % is not from 1 to the number behind NBLOCKS; mend one of the two
unknown-row @ no row of the model has the name % here; an unnamed row is called c and its place, as c3
row-twice @ the row % is listed a second time; keep one of the two places
unassigned @ CONSDEFAULTMASTER 0 asks for each row to be in a list, and one is in none; list it under MASTERCONSS, or write CONSDEFAULTMASTER 1
unknown-var @ no variable of the model has the name % here; mend it, or leave it out
limit @ % blocks are too many: 4096 are the most; read the model with --large, which takes 131072, or put more rows together
limit-size @ the text has more than 16777216 bytes, the most that is read; read it with --large, which takes 268435456
",
    large: "\
limit @ % blocks are too many: 131072 are the most; put more rows together
limit-size @ the text has more than 268435456 bytes, the most that is read
",
};

/// Lists of master rows.
pub const ROWS: Sentences = Sentences {
    usual: "\
bad-byte @ % has a byte that is not printable ASCII; write the name of a row as the model has it
unknown-row @ no row of the model has the name % here; an unnamed row is called c and its place, as c3
row-twice @ the row % is listed a second time; keep one of the two places
limit @ the list has more than 16777216 bytes, the most that is read; read it with --large, which takes 268435456
blocks @ the rows beside these fall into more than 4096 blocks, the most; read the model with --large, which takes 131072, or list fewer master rows
",
    large: "\
limit @ the list has more than 268435456 bytes, the most that is read
blocks @ the rows beside these fall into more than 131072 blocks, the most; list fewer master rows
",
};

/// Certificates that can't be read.
pub const CERT: Sentences = Sentences {
    usual: "\
syntax @ this is not the form of a certificate's line (one spelling, single spaces, a line feed at each end, `end` last): % is what stands here
syntax-end @ the line is empty, or the text ends before the line `end`; was the file cut off?
too-large @ a number in % is past its limit: 1048576 for a scale and in the line of a cut, 1099511627776 for a multiplier of a leaf, 4611686018427387903 for the others; write smaller ones in the same proportion
number @ in % a variable, row or block is not there, or a row is no master row, or they do not ascend, or a divisor or multiplier is 0; was it written for this model and decomposition?
length @ the point has more or fewer numbers than the model has variables; was it written for this model?
depth @ a node lies under more than 8256 splits, the most; read it with --large, which takes 1048640
limit @ there are more than 256 cuts, the most
",
    large: "\
depth @ a node lies under more than 1048640 splits, the most
",
};

/// Certificates that are rejected.
pub const REJECTED: &str = "\
point-bound @ a number of the point is outside its variable's bounds
point-row @ the point misses a row of the model
value @ the point's value is not the one that is claimed
split @ one of the two parts of this split is empty, or its number is outside the variable's span there
sign @ a multiplier of this line has the wrong sign: at least rows take positive ones, at most rows negative ones
weak @ the bound that this leaf's multipliers prove does not reach what the claim needs
open @ this leaf is open, which only a claim of a bound may have
cut @ the sums of this cut's row may pass 4611686018427387903 (2^62 - 1) within the bounds
";

/// What to do about a certificate that is rejected.
pub const AFTER_REJECTED: &str =
    "; the claim is not proved by this file: check it with the model and decomposition that it was written for, or solve anew";

/// Certificates to go on from, or to merge.
pub const FROM: Sentences = Sentences {
    usual: "\
depth @ the certificate is valid, but this leaf lies too deep to be split on (its splits and its zone's binary digits pass 8256); read it with --large, which takes 1048640, begin anew, or from another certificate
cuts @ the certificate is valid, but on this line it has another cut than the one that it is merged with; merge certificates of one search, or of searches without cuts
",
    large: "\
depth @ the certificate is valid, but this leaf lies too deep to be split on (its splits and its zone's binary digits pass 1048640); begin anew, or from another certificate
",
};
