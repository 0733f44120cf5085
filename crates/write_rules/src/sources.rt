// Where each record of an extract to be written comes from, by number.
use extract::RECORDS;

// The source of record 0: the numbers below are those of the old extract's records.
pub const MBR_SOURCE: usize = RECORDS;

// The source of the first EBR.
pub const EBR_SOURCE: usize = MBR_SOURCE + 1;
