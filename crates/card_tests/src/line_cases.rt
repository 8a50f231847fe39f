use card::copy_line;
use cells::Cell;
use kinds::{Length, Point};
use lines::{Line, read_line};
use std::alloc::Global;
use std::test::Fail;
use words::{Fault, Lines, parse_number};

// Whether a line of two lengths is refused for its form.
fn refused(heap: Global, line: &[u8]) -> bool {
    let read: Result<Line<Length>, Fault> = read_line(heap, 2, line);
    matches!(read, Err(Fault::Form))
}

#[test]
fn numbers(rt: HostRuntime) {
    assert_eq!(rt; parse_number(b"99999999"), Some(99_999_999));
    assert_eq!(rt; parse_number(b"-99999999"), Some(-99_999_999));
    assert_eq!(rt; parse_number(b"999999999"), None);
    assert_eq!(rt; parse_number(b"0"), Some(0));
    assert_eq!(rt; parse_number(b"-0"), None);
    assert_eq!(rt; parse_number(b"07"), None);
    assert_eq!(rt; parse_number(b"-"), None);
    assert_eq!(rt; parse_number(b""), None);
}

#[test]
fn forms(rt: HostRuntime) {
    let heap = rt.alloc();
    assert!(rt; !refused(heap, b"pull 1 -2\n"));
    let bad: [&[u8]; 12] = [
        b"pull 1 -2",
        b"pull 1 -2\r\n",
        b"pull 1  -2\n",
        b"pull 1 -2 \n",
        b" pull 1 -2\n",
        b"pull 1 \x00\n",
        b"pull 1 \xff\n",
        b"pull 1\n",
        b"pull 1 2 3\n",
        b"\n",
        b"",
        b"keep \n",
    ];
    for line in bad {
        assert!(rt; refused(heap, line));
    }
}

#[test]
fn cells(rt: HostRuntime) -> Result<(), Fail> {
    let read: Result<Line<Length>, Fault> = read_line(rt.alloc(), 4, b"grip . * ~ 1\n");
    let Ok(Line::Grip(cells)) = read else {
        return Err(Fail::new("no grip"));
    };
    assert!(rt; cells.len() == 4);
    assert!(rt; matches!(cells[0], Cell::Held));
    assert!(rt; matches!(cells[1], Cell::Pulled));
    assert!(rt; matches!(cells[2], Cell::Loose));
    assert!(rt; matches!(cells[3], Cell::Weighted(1)));
    Ok(())
}

// A line of 51 points copied, whose last word is handed in; the words before it make 1,005 bytes with the verb.
fn copied(heap: Global, last: &[u8]) -> Result<usize, Fail> {
    let mut line = b"pull".to_vec(heap)?;
    for _ in 0..50 {
        line.extend_from_slice(b" -99999999,-99999999")?;
    }
    line.extend_from_slice(last)?;
    let mut out = [0; 2000];
    match copy_line::<Point>(heap, 51, line.as_slice(), &mut out) {
        Ok(size) => Ok(size),
        Err(_) => Ok(0),
    }
}

#[test]
fn limits(rt: HostRuntime) -> Result<(), Fail> {
    assert_eq!(rt; copied(rt.alloc(), b" 99999999,-99999999\n")?, 1024);
    assert_eq!(rt; copied(rt.alloc(), b" -99999999,-99999999\n")?, 0);
    Ok(())
}

#[test]
fn cuts(rt: HostRuntime) {
    let mut lines = Lines::new(b"keep\n\ndrop");
    assert_eq!(rt; lines.next(), Some(b"keep\n".as_slice()));
    assert_eq!(rt; lines.next(), Some(b"\n".as_slice()));
    assert_eq!(rt; lines.next(), Some(b"drop".as_slice()));
    assert_eq!(rt; lines.next(), None);
}
