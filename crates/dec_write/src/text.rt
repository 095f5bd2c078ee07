// The lines of the text of a decomposition.
ghost use Rattle.std.specs.Prelude.{◌≡◌, ◌≤◌, ◌<◌, ◌++◌, ◌∷◌, [], ℕ, List, Option, IfOk, OnOk, length, decimal};
ghost use Rattle.std.specs.List.{zip};
ghost use Rattle.bp_theory.specs.Limits.{most_blocks};
ghost use Rattle.bp_theory.specs.declared.Limits.TheVariants.{Large};
ghost use Rattle.bp_theory.specs.Decomposition.{Decomposition, IsPlace};
ghost use Rattle.bp_model.specs.Named.{NamedProgram};
ghost use Rattle.dec_write.specs.Text.{text_of, block_head, AreLines};

use itoa::Buffer;
use std::alloc::{AllocError, Global};

/// A line for each block and one of the master rows, without their ends.
#[derive(Drop)]
pub struct Lines {
    /// By number of the block: BLOCK with that number from 1, and the names of the block's rows.
    pub blocks: Vec<Vec<u8>>,
    /// MASTERCONSS and the names of the master rows.
    pub master: Vec<u8>,
}

// A number more.
fn push_number(text: &mut Vec<u8>, number: u32) -> Result<(), AllocError>
    ensures { OnOk result (text.new.items ≡ text.old.items ++ decimal number) }
{
    text.extend_from_slice(Buffer::new().format(number).as_bytes())
}

// The front of a block's line.
fn head_of(alloc: Global, block: u32) -> Result<Vec<u8>, AllocError>
    requires { block < most_blocks Large }
    ensures { IfOk result (λ head. head.items ≡ block_head block) }
{
    let mut head = Vec::from_slice(alloc, b"BLOCK ")?;
    push_number(&mut head, block + 1)?;
    Ok(head)
}

// A name more, with a space before it.
fn push_name(line: &mut Vec<u8>, name: &[u8]) -> Result<(), AllocError>
    ensures { OnOk result (line.new.items ≡ line.old.items ++ 32 ∷ name.now) }
{
    line.push(b' ')?;
    line.extend_from_slice(name)
}

impl Lines {
    /// The lines of so many blocks, without names.
    pub fn new(alloc: Global, blocks: u32) -> Result<Lines, AllocError>
        requires { blocks ≤ most_blocks Large }
        ensures { IfOk result (AreLines blocks []) }
    {
        let mut heads = Vec::new(alloc);
        for block in 0..blocks {
            heads.push(head_of(alloc, block)?)?;
        }
        Ok(Lines {
            blocks: heads,
            master: Vec::from_slice(alloc, b"MASTERCONSS")?,
        })
    }

    /// The name of a row of this place more.
    pub fn add(&mut self, place: Option<u32>, name: &[u8]) -> Result<(), AllocError>
        requires { IsPlace (length self.old.blocks.items) place }
        ensures { (blocks : ℕ) (rows : List (List ℕ × Option ℕ)) → AreLines blocks rows self.old
            → OnOk result (AreLines blocks (rows ++ (name.now, place) ∷ []) self.new) }
    {
        match place {
            Some(block) => push_name(&mut self.blocks[block as usize], name),
            None => push_name(&mut self.master, name),
        }
    }

    /// The text of a decomposition of so many blocks with these lines.
    pub fn text(&self, alloc: Global, blocks: u32) -> Result<Vec<u8>, AllocError>
        ensures { (m : NamedProgram) (d : Decomposition) → blocks ≡ d.blocks →
            AreLines d.blocks (zip m.row_names d.places) self.now →
            IfOk result (λ text. text.items ≡ text_of m d) }
    {
        let mut text = Vec::from_slice(alloc, b"NBLOCKS ")?;
        push_number(&mut text, blocks)?;
        text.extend_from_slice(b"\n")?;
        for line in &self.blocks {
            text.extend_from_slice(line)?;
            text.extend_from_slice(b"\n")?;
        }
        text.extend_from_slice(&self.master)?;
        text.extend_from_slice(b"\n")?;
        Ok(text)
    }
}
