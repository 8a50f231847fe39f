use heading::read_heading;
use heading_write::copy_heading;
use std::alloc::Global;
use std::test::Fail;
use words::Fault;

// Whether a heading is refused for its form.
fn refused(heap: Global, line: &[u8]) -> bool {
    matches!(read_heading(heap, line), Err(Fault::Form))
}

#[test]
fn forms(rt: HostRuntime) {
    let heap = rt.alloc();
    assert!(rt; !refused(heap, b"length a\n"));
    assert!(rt; !refused(heap, b"point abcdefg8 b\n"));
    let bad: [&[u8]; 8] = [
        b"point abcdefgh9 b\n",
        b"length\n",
        b"lengths a\n",
        b"length a b a\n",
        b"length 1a\n",
        b"length A\n",
        b"length a  b\n",
        b"length a",
    ];
    for line in bad {
        assert!(rt; refused(heap, line));
    }
}

// How many names a heading of that many distinct names is read with; none when it is refused.
fn names(heap: Global, count: u8) -> Result<usize, Fail> {
    let mut line = b"length".to_vec(heap)?;
    for i in 0..count {
        line.extend_from_slice(&[b' ', b'a' + i / 25, b'a' + i % 25])?;
    }
    line.push(b'\n')?;
    match read_heading(heap, line.as_slice()) {
        Ok(read) => Ok(read.names.len()),
        Err(_) => Ok(0),
    }
}

#[test]
fn counts(rt: HostRuntime) -> Result<(), Fail> {
    assert_eq!(rt; names(rt.alloc(), 48)?, 48);
    assert_eq!(rt; names(rt.alloc(), 49)?, 0);
    Ok(())
}

#[test]
fn copies(rt: HostRuntime) {
    let mut out = [7; 12];
    let size = copy_heading(rt.alloc(), b"point a b2\n", &mut out);
    assert!(rt; matches!(size, Ok(11)));
    assert_eq!(rt; out.as_slice(), b"point a b2\n\x07".as_slice());
}
