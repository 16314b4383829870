//! The files of the current folder as a disk.
use disk_model::Disk;
use host_edge::FileDisk;
use std::fs;
use std::test::Fail;

const FILES: [&str; 9] = [
    "graph.0", "graph.1", "graph.2", "graph.3", "graph.4", "graph.5", "graph.6", "graph.7",
    "graph.8",
];

#[test]
fn gives_back_what_was_written(rt: HostRuntime) -> Result<(), Fail> {
    let mut disk = FileDisk::new(rt);
    disk.write(3, 2, b"graph")?;
    disk.sync(3)?;
    let mut out = [1; 10];
    disk.read(3, 0, &mut out)?;
    assert!(rt; out == *b"\0\0graph\0\0\0");
    let mut past_the_end = [1; 3];
    disk.read(3, 7, &mut past_the_end)?;
    assert!(rt; past_the_end == [0; 3]);
    // The first sync has made all of them.
    for name in FILES {
        fs::remove_file(&rt, name)?;
    }
    Ok(())
}
