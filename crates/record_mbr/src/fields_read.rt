// The parts of an MBR record, read. Internal.
ghost use Rattle.std.specs.Prelude.{◌≡◌, ◌≤◌, length};
ghost use Rattle.record_mbr.specs.Mbr.{code_of, mbr_of};

use crate::MBRHeader;

// The code of a record.
pub fn code_of(r: &[u8]) -> [u8; 440]
    requires { 440 ≤ length r.now }
    ensures { result ≡ code_of r.now }
{
    let mut code = [0u8; 440];
    base::copy_in(&mut code, 0, &r[0..440]);
    code
}

// The header in a record of 512 bytes.
pub fn decode(r: &[u8]) -> MBRHeader
    requires { length r.now ≡ 512 }
    ensures { result ≡ mbr_of r.now }
{
    let code = code_of(r);
    let one = record_entry::reader::read(r, 446);
    let two = record_entry::reader::read(r, 462);
    let three = record_entry::reader::read(r, 478);
    let four = record_entry::reader::read(r, 494);
    let disk = [r[440], r[441], r[442], r[443]];
    let mark = [r[444], r[445]];
    let sign = [r[510], r[511]];
    MBRHeader {
        bootstrap_code: code,
        disk_signature: disk,
        copy_protected: mark,
        partition_1: one,
        partition_2: two,
        partition_3: three,
        partition_4: four,
        boot_signature: sign,
    }
}
