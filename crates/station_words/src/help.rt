// What --help and --version print.

fn lines(rt: &HostRuntime, s: &str) {
    let _ = rt.print(s);
}

fn sector(rt: &HostRuntime) {
    lines(
        rt,
        "  --sector N: the sector size, 512, 1024, 2048 or 4096; not given, a device's own, and 512 for an image\n",
    );
}

fn changes(rt: &HostRuntime) {
    lines(
        rt,
        "  --dry-run: prints the table before and after and the stores, and changes nothing
  --save FILE: first writes the extract of the disk to a new file
  --in-use: goes on though a partition of the disk is mounted, is swap or is held\n",
    );
    sector(rt);
}

pub fn list(rt: &HostRuntime) {
    lines(
        rt,
        "station list DISK [--sector N]
  prints the partition table of a disk or an image\n",
    );
    sector(rt);
}

pub fn extract(rt: &HostRuntime) {
    lines(
        rt,
        "station extract DISK [--sector N]
  writes the records that reading looks at to standard output, as an extract\n",
    );
    sector(rt);
}

pub fn push(rt: &HostRuntime) {
    lines(
        rt,
        "station push DISK TYPE START SECTORS [--align N] [--geometry C/H/S] [--overwrite-first]
    [--dry-run] [--save FILE] [--in-use] [--sector N]
  adds a logical partition behind the others or in a gap between two, and prints its number; TYPE is two hex digits
  START is its boot record's place and SECTORS counts from there; both are rounded up
  --align N: the alignment, 2048 if not given
  --geometry C/H/S: the disk's, for the partition's addresses; none if not given
  --overwrite-first: goes on though the extended partition begins with something that is no boot record\n",
    );
    changes(rt);
}

pub fn remove(rt: &HostRuntime) {
    lines(
        rt,
        "station remove DISK NUMBER [--dry-run] [--save FILE] [--in-use] [--sector N]
  removes the logical partition of that number, from 5 on\n",
    );
    changes(rt);
}

pub fn all(rt: &HostRuntime) {
    list(rt);
    extract(rt);
    push(rt);
    remove(rt);
    lines(
        rt,
        "station COMMAND --help prints the part of one command, station --version the version.\n",
    );
}

pub fn version(rt: &HostRuntime) {
    lines(rt, "station 0.1.0 (Crumbvessel)\n");
}
