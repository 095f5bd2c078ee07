// Programs in blocks from their texts.
ghost use Rattle.std.specs.Prelude.{IfSome};
ghost use Rattle.bp_theory.specs.Decomposition.{HasPlaces};
ghost use Rattle.bp_model.specs.Dec.{HasListed};

use block_form::check_blocks;
use block_program::Blocked;
use bp_model::{Dec, Model};
use bp_theory::Limits;
use dec_read::read_dec;
use lp_read::read_lp;
use std::alloc::Global;

/// The program in blocks that a model's text and that of its decomposition mean. None where a text or the decomposition is
/// refused, or memory is short. Without a decomposition every row is a master row.
pub fn blocks_of(alloc: Global, text: &str, dec: Option<&str>) -> Option<Blocked> {
    let Ok(model) = read_lp(alloc, Limits::Usual, text.as_bytes()) else {
        return None;
    };
    let Some(dec) = dec_of(alloc, &model, dec) else {
        return None;
    };
    match check_blocks(alloc, model, dec) {
        Ok(b) => Some(b),
        Err(_) => None,
    }
}

// The decomposition that a text means, or the plain one.
fn dec_of(alloc: Global, model: &Model, text: Option<&str>) -> Option<Dec>
    ensures places { IfSome result (λ dec. HasPlaces model.now.program dec) }
    ensures listed { IfSome result (λ dec. HasListed model.now.program dec) }
{
    match text {
        None => match Dec::plain(alloc, model) {
            Ok(dec) => Some(dec),
            Err(_) => None,
        },
        Some(text) => match read_dec(alloc, text.as_bytes(), model) {
            Ok(dec) => Some(dec),
            Err(_) => None,
        },
    }
}
