// One record of an extract to be written, put at an index. Internal.
ghost use Rattle.std.specs.Prelude.{◌≡◌, ◌+◌, ◌≤◌, length};
ghost use Rattle.base.specs.Put.{put};
ghost use Rattle.chain.specs.Links.{ebr_with};
ghost use Rattle.record_ebr.specs.Ebr.{no_mark, ebr_bytes};
ghost use Rattle.write_rules.specs.Sources.{kept_from, Valid, Writing};

use record_ebr::MARK;
use record_entry::MBRPartitionEntry;
use table::LogicalPartition;
use write_rules::sources::MBR_SOURCE;

// An old record, or record 0, from index `at` on.
pub fn put_kept(out: &mut [u8], at: usize, x: &[u8], n: usize, first: &[u8], source: usize)
    requires { Writing x.now n 0 first.now × Valid n 0 source × (at + 512 ≤ length out.old) }
    ensures { out.new ≡ put out.old at (kept_from x.now first.now source) }
{
    if source < MBR_SOURCE {
        let from = 24 + n * 4 + source * 512;
        base::copy_in(out, at, &x[from..from + 512]);
        return;
    }
    base::copy_in(out, at, first);
}

// The EBR of a logical partition with a link entry and zeros for its mark, from index `at` on.
pub fn put_ebr(out: &mut [u8], at: usize, l: LogicalPartition, link: MBRPartitionEntry)
    requires { at + 512 ≤ length out.old }
    ensures { out.new ≡ put out.old at (ebr_bytes no_mark (ebr_with l link)) }
{
    let h = chain::links::ebr_with(l, link);
    let zeros = [0u8; MARK];
    record_ebr::writer::write_at(out, at, h, zeros);
}
