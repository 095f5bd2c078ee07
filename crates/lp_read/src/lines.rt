// The lines of a text's tokens.
ghost use Rattle.std.specs.Prelude.{◌≡◌, ◌≤◌, ◌^◌, List, length};
ghost use Rattle.lp_token.specs.declared.Tok.{Tok};
ghost use Rattle.lp_token.specs.Cut.{Cut};
ghost use Rattle.lp_semantics.specs.Reading.{line_of as specs_line_of};

use lp_token::{beginning, behind, is_end, next};

/// The line of the token with so many before it, 0 where there is none. The text is cut anew up to there.
pub fn line_of(bytes: &[u8], count: usize) -> u32
    requires { length bytes.now ≤ 2 ^ 28 }
    ensures { (tokens : List Tok) → Cut bytes.now tokens → result ≡ specs_line_of tokens count }
{
    let mut place = beginning();
    let mut left = count;
    'seek: loop {
        match next(bytes, place) {
            Ok(Some(token)) => {
                if left == 0 {
                    return token.line;
                }
                if is_end(bytes, &token) {
                    return 0;
                }
                left -= 1;
                place = behind(&token);
            }
            Ok(None) => return 0,
            Err(_) => return 0,
        }
    }
}
