// Blocks and their records answered, one after the other, on tables that are carried from block to
// block.
use arrayvec::ArrayString;
use blocks::{Block, Record};
use dispatch::host::{call, completion, event, fresh, wake};
use rules::answers::{Answer, Pair, Refusal};
use rules::numbers::ACTION_MEMORY;
use rules::platform::{HartSet, Platform, Range};
use std::fmt::Write;
use std::{fmt, io};
use tables::Rows;

pub(crate) const BLOCK_BYTES: usize = 512;

// Lines are written before the next block once they are so many bytes: its own then have room,
// seven of four numbers, none over twenty characters.
const ENOUGH: usize = 64000;

const HARTS_0_TO_3: HartSet = HartSet { low: 15, high: 0 };

// "Platform: harts 0 to 3 with the hypervisor extension, boot 0, one range 0x80000000 length
// 0x08000000, widths 16 and 14, Base numbers 0."
const PLATFORM: Platform = Platform {
    enabled: HARTS_0_TO_3,
    hypervisor: HARTS_0_TO_3,
    boot: 0,
    // the first range alone
    used: 1,
    ranges: [Range {
        base: 0x80000000,
        length: 0x08000000,
    }; 8],
    asid: 16,
    vmid: 14,
    implementation: 0,
    version: 0,
    vendor: 0,
    architecture: 0,
    machine: 0,
};

// A used record as it is printed.
#[derive(Clone, Copy)]
struct Line {
    number: u64,
    answer: Answer,
}

// "prints its number, error (signed), value (unsigned), number of actions .., or number and Hk"
impl fmt::Display for Line {
    fn fmt<W: fmt::Write>(&self, f: &mut fmt::Formatter<W>) -> fmt::Result {
        let number = self.number;
        match Pair::try_from(self.answer) {
            Ok(pair) => write!(
                f,
                "{number} {} {} {}",
                pair.error, pair.value, pair.actions,
            ),
            Err(k) => write!(f, "{number} H{}", k.number()),
        }
    }
}

// What is carried from block to block, and the lines that are still to be written. The rows are lent
// and the platform is kept: rows made here would be copied once more on the stack, and each use of
// the constant is a copy.
#[derive(Drop)]
pub(crate) struct Transcript<'a, P> {
    out: P,
    platform: Platform,
    rows: &'a mut Rows,
    actions: [u64; ACTION_MEMORY],
    // that of the last used record
    number: u64,
    lines: ArrayString<65536>,
}

impl<'a, P: Print> Transcript<'a, P> {
    pub(crate) fn new(out: P, rows: &'a mut Rows) -> Self {
        let _ = fresh(&PLATFORM, rows);
        Transcript {
            out,
            platform: PLATFORM,
            rows,
            actions: [0; ACTION_MEMORY],
            number: 0,
            lines: ArrayString::new(),
        }
    }

    // Answers blocks, the last of which may be short. They are answered also where a write fails.
    pub(crate) fn answer(&mut self, bytes: &[u8]) -> io::Result<()> {
        let mut written = Ok(());
        let (blocks, rest) = bytes.as_chunks::<BLOCK_BYTES>();
        for block in blocks {
            if self.lines.len() >= ENOUGH {
                written = written.and(self.write());
            }
            self.block(block)?;
        }
        // "A short last block prints `short`."
        if !rest.is_empty() {
            writeln!(self.lines, "short")?;
        }
        written
    }

    // Writes the lines, which are then gone, also where that fails.
    pub(crate) fn write(&mut self) -> io::Result<()> {
        let written = self.out.write_all(self.lines.as_bytes());
        self.lines.clear();
        written
    }

    fn block(&mut self, bytes: &[u8; BLOCK_BYTES]) -> fmt::Result {
        let mut block: Block = [0; 64];
        blocks::read(bytes, 0, &mut block);
        // "A wrong block prints `H8` and adds no record."
        if !blocks::check(&block) {
            return writeln!(self.lines, "H{}", Refusal::BlockCheck.number());
        }
        // One by one: `blocks::records` makes all seven before the first is looked at, which takes
        // twice the instructions for a block whose records are unused.
        for i in 0..7 {
            self.record(blocks::record_at(&block, i))?;
        }
        Ok(())
    }

    // Answers a record that is used, H7 for an unknown kind, and puts its line.
    fn record(&mut self, record: Record) -> fmt::Result {
        let answer = match record {
            Record::Unused => return Ok(()),
            Record::Call { hart, registers } => {
                call(
                    &self.platform,
                    self.rows,
                    &mut self.actions,
                    hart,
                    registers,
                )
            }
            Record::Done { hart } => completion(&self.platform, self.rows, &self.actions, hart),
            Record::Wake { hart } => wake(&self.platform, self.rows, &mut self.actions, hart),
            Record::Event { hart, code } => event(&self.platform, self.rows, hart, code),
            Record::Unknown => Err(Refusal::UnknownKind.into()),
        };
        // "Numbers run from 1 over the used records of all right blocks"
        self.number = self.number.wrapping_add(1);
        let line = Line {
            number: self.number,
            answer,
        };
        writeln!(self.lines, "{line}")
    }
}
