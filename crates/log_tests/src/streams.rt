//! Bytes from a source of plain memory to a page.
use std::test::Fail;
use stream_io::{Bytes, Page, Sink, Source};

// Passes on what seven reads of at most four bytes give; what a put refuses is lost.
fn pass_on(source: &mut Bytes, page: &mut Page) {
    let mut out = [0; 4];
    for _ in 0..7 {
        if let Ok(n) = source.read(&mut out) {
            let _ = page.put(&out[..n]);
        }
    }
}

#[test]
fn bytes_go_from_a_source_to_a_page(rt: HostRuntime) -> Result<(), Fail> {
    // The largest piece, the room, the read and the put that fail, and what is taken in the end.
    let cases: [(usize, usize, u64, u64, &[u8]); 8] = [
        (3, 16, 0, 0, b"abcdefgh"),
        (9, 16, 0, 0, b"abcdefgh"),
        (1, 16, 0, 0, b"abcdefg"),
        (3, 8, 0, 0, b"abcdefgh"),
        (3, 7, 0, 0, b"abcdef"),
        (3, 5, 0, 0, b"abcgh"),
        (3, 16, 2, 0, b"abcdefgh"),
        (3, 16, 0, 2, b"abcgh"),
    ];
    for (piece, room, failing_read, failing_put, want) in cases {
        assert!(rt; 0 < piece);
        let bytes = Vec::from_slice(rt.alloc(), b"abcdefgh")?;
        let fails = Vec::from_slice(rt.alloc(), &[failing_read])?;
        let mut source = Bytes::new(bytes, piece, fails)?;
        let fails = Vec::from_slice(rt.alloc(), &[failing_put])?;
        let mut page = Page::new(rt.alloc(), room, fails)?;
        pass_on(&mut source, &mut page);
        assert!(rt; page.taken() == want, "piece {piece}, room {room}");
    }
    Ok(())
}
