// How the case programs write the values of the library.
use crate::show::{Checksum, Hex, Out, Show};
use extract::Extract;
use record_chs::CHS;
use record_ebr::{EBRHeader, Kept};
use record_entry::MBRPartitionEntry;
use record_mbr::MBRHeader;
use table::{LogicalPartition, MBR};

// Sector size, D and the number of records.
impl Show for Extract {
    fn show(&self, out: &mut Out) {
        self.sector_size.show(out);
        self.disk_size.show(out);
        self.count.show(out)
    }
}

impl Show for CHS {
    fn show(&self, out: &mut Out) {
        self.cylinder.show(out);
        self.head.show(out);
        self.sector.show(out)
    }
}

impl Show for MBRPartitionEntry {
    fn show(&self, out: &mut Out) {
        self.boot.show(out);
        self.first_chs.show(out);
        self.sys.show(out);
        self.last_chs.show(out);
        self.starting_lba.show(out);
        self.sectors.show(out)
    }
}

// A checksum of the code, disk signature, copy mark and boot signature, the four entries.
impl Show for MBRHeader {
    fn show(&self, out: &mut Out) {
        Checksum(&self.bootstrap_code).show(out);
        Hex(&self.disk_signature).show(out);
        Hex(&self.copy_protected).show(out);
        Hex(&self.boot_signature).show(out);
        self.partition_1.show(out);
        self.partition_2.show(out);
        self.partition_3.show(out);
        self.partition_4.show(out)
    }
}

// A checksum of the code, and one of the mark.
impl Show for Kept {
    fn show(&self, out: &mut Out) {
        Checksum(&self.bootstrap_code).show(out);
        Checksum(&self.mark).show(out)
    }
}

// What the record keeps, the partition's entry and the link's.
impl Show for EBRHeader {
    fn show(&self, out: &mut Out) {
        self.kept.show(out);
        self.partition_1.show(out);
        self.partition_2.show(out)
    }
}

// The entry, the place of its EBR, link sectors, first and last link CHS, what its EBR keeps.
impl Show for LogicalPartition {
    fn show(&self, out: &mut Out) {
        self.partition.show(out);
        self.absolute_ebr_lba.0.show(out);
        self.ebr_sectors.show(out);
        self.ebr_first_chs.show(out);
        self.ebr_last_chs.show(out);
        self.kept.show(out)
    }
}

// Sector size, D, alignment, geometry and the count, then the header, then each logical partition.
impl Show for MBR {
    fn show(&self, out: &mut Out) {
        self.sector_size.show(out);
        self.disk_size.show(out);
        self.align.show(out);
        self.cylinders.show(out);
        self.heads.show(out);
        self.sectors.show(out);
        self.count.show(out);
        self.header.show(out);
        for l in self.logical_partitions.iter().take(self.count) {
            l.show(out);
        }
    }
}
