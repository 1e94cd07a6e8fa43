// The bytes of an input, in memory.
ghost use Rattle.std.specs.Prelude.{◌≡◌, ◌<◌, [], ◌++◌, IfOk, IfSome, OnOk, drop, flat_map, length, slice_get, vec_items};
ghost use Rattle.std.specs.Io.KnownBytes.{Consumes, IsAtEnd};
ghost use Rattle.std.specs.Rc.{rc_value};

use cns_feed::{ReplayFault, read_some};
use cns_terms::NoMemory;
use std::alloc::Global;
use std::collections::VecDeque;
use std::io;
use std::io::Read;
use std::marker::Model;
use std::rc::Rc;

// About how many bytes make a block: so many that the C library gives its memory back to the system once it is freed.
const BLOCK: usize = 1_048_576;

/// The bytes of an input, from some place on. Contracts see them. A block that was read is given back once no copy has it.
#[derive(Drop)]
pub struct Input {
    blocks: VecDeque<Rc<Vec<u8>>>,
    // How many bytes of the first blocks were read.
    place: usize,
}

impl Model for Input {
    ghost use Rattle.std.specs.Prelude.{List, ℕ, drop, flat_map, vec_items};
    ghost use Rattle.std.specs.Rc.{rc_value};

    ghost Value = { List ℕ };

    ghost view = { λ i. drop i.place (flat_map (λ b. vec_items (rc_value b)) i.blocks.items) };
}

// Gives back the blocks that were read, of all of which so many bytes were. Answers how many of the first that is left were.
fn give_back(blocks: &mut VecDeque<Rc<Vec<u8>>>, read: usize) -> usize
    ensures same { drop result (flat_map (λ b. vec_items (rc_value b)) blocks.new.items)
        ≡ drop read (flat_map (λ b. vec_items (rc_value b)) blocks.old.items) }
    ensures left { IfSome (slice_get blocks.new.items 0) (λ b. result < length (vec_items (rc_value b))) }
{
    let mut place = read;
    while let Some(block) = blocks.front() {
        if place < block.len() {
            return place;
        }
        place -= block.len();
        blocks.pop_front();
    }
    place
}

impl Input {
    /// All bytes of a reader.
    ///
    /// `Read` where it fails, and `NoMemory` where an allocation failed.
    pub fn read<I: Read>(alloc: Global, reader: &mut I) -> Result<Input, ReplayFault>
        ensures { IfOk result (λ i. IfSome (I.remaining reader.old) (λ bytes. i ≡ bytes)) }
    {
        let mut blocks = VecDeque::new(alloc);
        for _ in 0..u64::MAX {
            let block = read_block(alloc, reader)?;
            if block.is_empty() {
                return Ok(Input { blocks, place: 0 });
            }
            keep(alloc, &mut blocks, block)?;
        }
        Err(ReplayFault::Read)
    }

    /// The same bytes once more. It takes no memory for them.
    pub fn copied(&self, alloc: Global) -> Result<Input, NoMemory>
        ensures { IfOk result (λ i. i ≡ self.now) }
    {
        let mut blocks = VecDeque::new(alloc);
        for place in 0..self.blocks.len() {
            let block = Rc::clone(&self.blocks[place])?;
            blocks.push_back(block)?;
        }
        Ok(Input {
            blocks,
            place: self.place,
        })
    }
}

// Adds a block behind the others.
fn keep(alloc: Global, blocks: &mut VecDeque<Rc<Vec<u8>>>, block: Vec<u8>) -> Result<(), NoMemory>
    ensures { OnOk result (flat_map (λ b. vec_items (rc_value b)) blocks.new.items
        ≡ flat_map (λ b. vec_items (rc_value b)) blocks.old.items ++ block.items) }
{
    let block = Rc::new(alloc, block)?;
    blocks.push_back(block)?;
    Ok(())
}

// The next bytes of a reader: about a block of them, or all that are left; none where it has no more.
fn read_block<I: Read>(alloc: Global, reader: &mut I) -> Result<Vec<u8>, ReplayFault>
    ensures bytes { IfOk result (λ b. Consumes (I.remaining reader.old) (I.remaining reader.new) b.items) }
    ensures end { IfOk result (λ b. b.items ≡ [] → IsAtEnd (I.remaining reader.new)) }
{
    let mut buf = [0; 8192];
    let Ok(mut block) = Vec::with_capacity(alloc, BLOCK) else {
        return Err(ReplayFault::NoMemory);
    };
    for _ in 0..u64::MAX {
        if block.len() > BLOCK - 8192 {
            return Ok(block);
        }
        let Ok(count) = read_some(reader, &mut buf) else {
            return Err(ReplayFault::Read);
        };
        if count == 0 {
            return Ok(block);
        }
        let Ok(()) = block.extend_from_slice(&buf[..count]) else {
            return Err(ReplayFault::NoMemory);
        };
    }
    Err(ReplayFault::Read)
}

impl Read for Input {
    ghost use Rattle.std.specs.Prelude.{Some};

    ghost remaining = { λ i. Some i };

    fn read(&mut self, buf: &mut [u8]) -> io::Result<usize> {
        self.place = give_back(&mut self.blocks, self.place);
        let Some(block) = self.blocks.front() else {
            return Ok(0);
        };
        let mut rest = &block[self.place..];
        let count = rest.read(buf)?;
        self.place += count;
        Ok(count)
    }
}
