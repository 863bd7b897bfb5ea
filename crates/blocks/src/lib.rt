// A block: 512 bytes, 64 little-endian words, whose first 63 are seven records of nine.
#![tactic(auto)]

ghost use Rattle.std.specs.Prelude.{◌≡◌, ◌+◌, ◌<◌, ◌≤◌, length, slice_get, EachIndex};
ghost use Rattle.blocks.specs.Blocks.{word_at, words_at, passes, record_at};

use rules::answers::Registers;
use std::array;

pub type Block = [u64; 64];

// What a record asks for. Unused and unknown are kinds as the others are: a line is printed for one
// of them, not for the other. An event's code is any number: who is asked tests it.
#[derive(Clone, Copy, Debug, PartialEq, Eq)]
pub enum Record {
    Unused,
    Call { hart: u64, registers: Registers },
    Done { hart: u64 },
    Wake { hart: u64 },
    Event { hart: u64, code: u64 },
    Unknown,
}

// The little-endian word of the eight bytes from a place on.
fn word_at(bytes: &[u8], at: usize) -> u64
    requires { at + 8 ≤ length bytes.now }
    ensures { result ≡ word_at bytes.now at }
{
    u64::from_le_bytes(*bytes[at..].first_chunk().unwrap())
}

// The 64 words of the 512 bytes from a place on, into a block that is lent: any place will do.
pub fn read(bytes: &[u8], at: usize, block: &mut Block)
    requires { at + 512 ≤ length bytes.now }
    ensures { block.new ≡ words_at 64 bytes.now at }
{
    *block = array::from_fn(|i| word_at(bytes, at + 8 * i));
}

// Whether the words of a block sum to 1 modulo 2^64.
#[tactic(auto, using(crate::proofs::Adding::sum_wraps), unfolding(crate::specs::Blocks::passes))]
pub fn check(block: &Block) -> bool
    ensures { result ≡ passes block.now }
{
    let total = block
        .iter()
        .fold(0u64, |total, &word| total.wrapping_add(word));
    total == 1
}

// The record of nine words.
impl From<[u64; 9]> for Record {
    ghost from_gives = { λ words made. made ≡ record_at words 0 };

    // "Words 0 to 62 are seven records of nine: kind and hart h, EID, FID, a0 to a5."
    #[tactic(auto, using(crate::proofs::Cases::kinds), unfolding(crate::specs::Blocks::record_of))]
    fn from(words: [u64; 9]) -> Self {
        let [first, eid, fid, a0, a1, a2, a3, a4, a5] = words;
        // "First word: 0 unused, 256 + h call, 512 + h done, 768 + h wake, 1024 + h event with its
        // code next; h is at most 127, all others H7."
        match first {
            0 => Record::Unused,
            256..=383 => Record::Call {
                hart: first - 256,
                registers: Registers {
                    a0,
                    a1,
                    a2,
                    a3,
                    a4,
                    a5,
                    a6: fid,
                    a7: eid,
                },
            },
            512..=639 => Record::Done { hart: first - 512 },
            768..=895 => Record::Wake { hart: first - 768 },
            1024..=1151 => Record::Event {
                hart: first - 1024,
                code: eid,
            },
            _ => Record::Unknown,
        }
    }
}

// Record i of seven.
#[tactic(auto, using(crate::proofs::Chunks::record_of_chunk))]
pub fn record_at(block: &Block, i: usize) -> Record
    requires { i < 7 }
    ensures { result ≡ record_at block.now i }
{
    let (records, _) = block.as_chunks();
    Record::from(records[i])
}

// The seven records.
pub fn records(block: &Block) -> [Record; 7]
    ensures { EachIndex result (λ i. slice_get result i ≡ Some (record_at block.now i)) }
{
    array::from_fn(|i| record_at(block, i))
}
