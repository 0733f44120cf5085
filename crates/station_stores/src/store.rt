// The stores of a change in the bytes that it answers with: each has an LBA and a record.
use careful_stores::STORE;

#[derive(Clone, Copy)]
pub struct Store<'a> {
    pub lba: u32,
    pub record: &'a [u8],
}

impl<'a> Store<'a> {
    // LBA 0 and no record where there are fewer bytes than an LBA has.
    pub fn of(bytes: &'a [u8]) -> Store<'a> {
        match bytes.split_first_chunk() {
            Some((lba, record)) => Store {
                lba: u32::from_le_bytes(*lba),
                record,
            },
            None => Store {
                lba: 0,
                record: &[],
            },
        }
    }
}

// How many stores a change has that says `n`: one or two.
pub(crate) fn count(n: usize) -> usize {
    n.clamp(1, 2)
}

// The stores of a change that says `n`, of whole ones as many as there are.
pub(crate) fn all(out: &[u8], n: usize) -> &[[u8; STORE]] {
    let (stores, _) = out.as_chunks();
    stores.get(..count(n)).unwrap_or(stores)
}
