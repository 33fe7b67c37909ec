//! The limits of counts, each once.

/// The most edges of a graph.
pub const MAX_EDGES: u64 = 16_777_216;

/// The most vertices of a graph.
pub const MAX_VERTICES: u64 = 16_777_216;

/// The most walkers of a plan.
pub const MAX_WALKERS: u32 = 16_777_216;

/// The most entries of all walks together, were each walk as long as it may be.
pub const MAX_PATH_ENTRIES: u64 = 134_217_728;

/// The most steps of a walk.
pub const MAX_LENGTH: u32 = 1_048_576;

/// The most darts of a step before it scans its row.
pub const MAX_RETRIES: u32 = 1_000;

/// The most types of a scheme.
pub const MAX_KINDS: usize = 16;

/// The greatest top and the greatest bottom of a fraction.
pub const MAX_TERM: u32 = 1_000_000;

/// The most that a vertex may reach: the number of its edges, times the sum of their weights, times
/// the greatest factor of the rule.
pub const MAX_REACH: u64 = 1 << 62;

/// The most bytes of a programme.
pub const MAX_PROGRAMME_BYTES: u64 = 65_536;

/// The most bytes of an edge list.
pub const MAX_GRAPH_BYTES: u64 = 1_073_741_824;

/// The most random words that a draw takes: one a round.
pub const WORDS_A_DRAW: u64 = 64;

/// The most random words that the choice of an edge takes: one a dart, and a draw for the scan.
pub const WORDS_A_CHOICE: u64 = MAX_RETRIES as u64 + WORDS_A_DRAW;

/// The most random words that a step takes: a draw for each of two coins, and a choice.
pub const WORDS_A_STEP: u64 = 2 * WORDS_A_DRAW + WORDS_A_CHOICE;
