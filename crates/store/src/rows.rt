// The rows and the places in a row.
use rules::numbers;

// The number of harts.
pub const HARTS: usize = numbers::HARTS as usize;

// Half of them: as many as a word has bits.
pub const HALF: usize = HARTS / 2;

// The number of counters of a hart.
pub const COUNTERS: usize = numbers::COUNTERS as usize;

// The number of words in a row.
pub const WORDS: usize = VALUES + COUNTERS;

// Word 0: 2 * (state + 1), and 1 more if the sleep is not retentive, so that cleared memory holds
// no state.
pub const STATE: usize = 0;

// Those of a STARTED and of a STOPPED hart with a retentive sleep note.
pub const STARTED_WORD: u64 = 2 * (numbers::STARTED + 1);

pub const STOPPED_WORD: u64 = 2 * (numbers::STOPPED + 1);

// Then the sleep note's address and opaque.
pub const ADDRESS: usize = 1;

pub const OPAQUE: usize = 2;

// A control byte for each counter: 0 if it is unmapped, STOPPED_CODE + code if it is stopped,
// RUNNING_CODE + code if it runs.
pub const CONTROL: usize = 3;

pub const STOPPED_CODE: u8 = 1;

pub const RUNNING_CODE: u8 = 23;

// Then the values of the eight counters.
pub const VALUES: usize = 4;

// A hart's row. Words and places in them, not a struct: the memory is the host's, lent as words.
pub type Row = [u64; WORDS];

// The rows of all harts.
pub type Rows = [Row; HARTS];
