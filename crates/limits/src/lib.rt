// Every number that document 01 states, by name, as limits/specs/Limits.antt has them for the definitions.
#![tactic(auto)]

// The longest file, in bytes and in lines.
pub const MAX_BYTES: usize = 65536;

pub const MAX_LINES: usize = 4096;

// How many T, P and I lines a file holds, C lines an iso, L lines a clause.
pub const MAX_TYPES: usize = 256;

pub const MAX_PATTERNS: usize = 1024;

pub const MAX_ISOS: usize = 32;

pub const MAX_CLAUSES: usize = 128;

pub const MAX_LETS: usize = 8;

// The nodes of an unfolded T or P line, and the left and right nodes of an unfolded P line.
pub const MAX_NODES: usize = 127;

pub const MAX_TAGS: usize = 40;

// What stands for more of either where nodes are counted.
pub const MANY_NODES: usize = MAX_NODES + 1;

pub const MANY_TAGS: usize = MAX_TAGS + 1;

// Variables are numbered below this, the numbers of a line stand below that, a budget below the last.
pub const VARIABLES: usize = 32;

pub const FIELD_BOUND: usize = 65536;

pub const BUDGET_BOUND: usize = 4294967296;

// The greatest number of a line, below `FIELD_BOUND`.
pub const MAX_FIELD: u32 = 65535;

// The greatest budget; pair lists read their numbers with the same bound.
pub const MAX_BUDGET: u32 = 4294967295;

// Numbers of 16 bits stand below this; the greatest of 32 bits, and how many of these there are.
pub const WORD_BOUND: usize = 65536;

pub const MAX_NUMBER: u32 = 4294967295;

pub const NUMBER_BOUND: usize = 4294967296;

// The numbers that a line takes in the table (request 10: its size is the fifth), and the lengths of the lent areas.
pub const ROW_WIDTH: usize = 5;

pub const TABLE_LENGTH: usize = MAX_LINES * ROW_WIDTH;

pub const WORK_LENGTH: usize = 65536;

pub const RESULT_LENGTH: usize = MAX_NODES;

// A value has fewer letters than this.
pub const LENGTHS: usize = MAX_NODES + 1;

// Request 14: how deep calls nest, the outermost being 1, and the most letters of an argument or a result.
pub const MAX_DEPTH: usize = 40;

pub const MAX_LETTERS: usize = 127;

// The letters that one application keeps: its argument, the results of its let steps and its own result; and the part of the work area that
// the frames of a run fill, one for each call of those nested.
pub const FRAME: usize = (MAX_LETS + 2) * LENGTHS;

pub const RUN_ROOM: usize = MAX_DEPTH * FRAME;

// A query's bytes, its ending included, and the most queries in one call.
pub const QUERY_LENGTH: usize = 200;

pub const MAX_QUERIES: usize = 600;

// The most values that are numbered.
pub const MAX_VALUES: usize = BUDGET_BOUND - 1;

// The most that is told of a count of steps.
pub const MAX_COUNT: u64 = 4294967295;

// The most values of a type whose pairs are listed, and the lengths of the areas for a list and for a file.
pub const MAX_PAIRS: usize = 4096;

pub const EXPORT_LENGTH: usize = 40960;

pub const IMPORT_LENGTH: usize = MAX_BYTES;

// The most units that a script is played on.
pub const MAX_UNITS: usize = 1000;

// An index (crate `run_index`): a place for each iso and one behind the last, the rows of the I and C lines, and the number of rows.
pub const INDEX_END: usize = MAX_ISOS + 1 + MAX_ISOS * (MAX_CLAUSES + 1);

pub const INDEX_LENGTH: usize = INDEX_END + 1;
