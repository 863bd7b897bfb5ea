// Every number of document 01, as a constant of its type.

// "Hart numbers 0 to 127. Eight counters a hart."
pub const HARTS: u64 = 128;

pub const COUNTERS: u64 = 8;

// "0 to 8 memory ranges, ASID width 0 to 16 bits, VMID width 0 to 14 bits"
pub const MAX_RANGES: u64 = 8;

pub const MAX_ASID_WIDTH: u64 = 16;

pub const MAX_VMID_WIDTH: u64 = 14;

// Extensions, as a7 holds them.
pub const BASE: u64 = 0x10;

pub const IPI: u64 = 0x735049;

pub const RFENCE: u64 = 0x52464E43;

pub const HSM: u64 = 0x48534D;

pub const PMU: u64 = 0x504D55;

// "version 3.0 is 50331648"
pub const SPEC_VERSION: u64 = 50331648;

// Errors, as a0 carries them: "a0 carries the error as a negative number".
pub const SUCCESS: i64 = 0;

pub const NOT_SUPPORTED: i64 = -2;

pub const INVALID_PARAM: i64 = -3;

pub const INVALID_ADDRESS: i64 = -5;

pub const ALREADY_AVAILABLE: i64 = -6;

pub const ALREADY_STARTED: i64 = -7;

pub const ALREADY_STOPPED: i64 = -8;

pub const NO_SHARED_MEMORY: i64 = -9;

// Host refusals: the k of Hk.
pub const NOT_WELL_FORMED: u64 = 1;

pub const NOT_ENABLED: u64 = 2;

pub const NOT_STARTED: u64 = 3;

pub const SHORT_MEMORY: u64 = 4;

pub const STATE_FORBIDS: u64 = 5;

pub const NOT_REPORTABLE: u64 = 6;

pub const UNKNOWN_KIND: u64 = 7;

pub const BLOCK_CHECK: u64 = 8;

// Hart states.
pub const STARTED: u64 = 0;

pub const STOPPED: u64 = 1;

pub const START_PENDING: u64 = 2;

pub const STOP_PENDING: u64 = 3;

pub const SUSPENDED: u64 = 4;

pub const SUSPEND_PENDING: u64 = 5;

pub const RESUME_PENDING: u64 = 6;

// Suspend types: the low 32 bits of a0.
pub const RETENTIVE: u64 = 0;

pub const NON_RETENTIVE: u64 = 0x80000000;

// The base that selects all enabled harts, and the size that means the whole space: 2^64 - 1.
pub const ALL_ONES: u64 = u64::MAX;

// "action memory under 640 words": one action of five words for each of 128 harts.
pub const ACTION_WORDS: usize = 5;

pub const ACTION_MEMORY: usize = 640;

// Action kinds; a fence's kind is FENCE plus its function.
pub const ENTER: u64 = 1;

pub const INTERRUPT: u64 = 2;

pub const FENCE: u64 = 3;

// Firmware events: "Events 0xF0000 to 0xF0015 only", so codes 0 to 21. "The host reports codes 0 to
// 5."
pub const FIRST_EVENT: u64 = 0xF0000;

pub const LAST_EVENT: u64 = 0xF0015;

pub const LAST_CODE: u64 = 21;

pub const CODES: u64 = LAST_CODE + 1;

pub const LAST_REPORTED: u64 = 5;

// The code of a sent interrupt; a received event's code is its sent one's plus 1.
pub const INTERRUPT_SENT: u64 = 6;

// Counter details: a firmware counter.
pub const FIRMWARE_COUNTER: u64 = 1 << 63;
