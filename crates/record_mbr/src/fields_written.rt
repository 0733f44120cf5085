// The bytes of an MBR record, written. Internal.
ghost use Rattle.std.specs.Prelude.{◌≡◌, ◌++◌, ◌≤◌, length};
ghost use Rattle.base.specs.Put.{put};
ghost use Rattle.base.specs.Bytes.{signature};
ghost use Rattle.record_entry.specs.Entry.{entry_bytes};
ghost use Rattle.record_mbr.specs.Mbr.{mbr_bytes};

use crate::MBRHeader;

// Code, disk signature and copy mark, from index 0 on.
fn write_front(d: &mut [u8], h: MBRHeader)
    requires { 512 ≤ length d.old }
    ensures { d.new ≡ put d.old 0 (h.bootstrap_code ++ h.disk_signature ++ h.copy_protected) }
{
    let code = h.bootstrap_code;
    base::copy_in(d, 0, &code);
    let disk = h.disk_signature;
    base::copy_in(d, 440, &disk);
    let mark = h.copy_protected;
    base::copy_in(d, 444, &mark);
}

// Entries and signature, from index 446 on.
fn write_back(d: &mut [u8], h: MBRHeader)
    requires { 512 ≤ length d.old }
    ensures { d.new ≡ put d.old 446 (entry_bytes h.partition_1 ++ entry_bytes h.partition_2 ++ entry_bytes h.partition_3 ++ entry_bytes h.partition_4 ++ signature) }
{
    let one = h.partition_1;
    record_entry::writer::write(d, 446, one);
    let two = h.partition_2;
    record_entry::writer::write(d, 462, two);
    let three = h.partition_3;
    record_entry::writer::write(d, 478, three);
    let four = h.partition_4;
    record_entry::writer::write(d, 494, four);
    base::copy_in(d, 510, &base::SIGNATURE);
}

// The 512 bytes of a header, from index 0 on.
pub fn write_all(d: &mut [u8], h: MBRHeader)
    requires { 512 ≤ length d.old }
    ensures { d.new ≡ put d.old 0 (mbr_bytes h) }
{
    write_front(d, h);
    write_back(d, h);
}
