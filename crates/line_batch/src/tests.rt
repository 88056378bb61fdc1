use super::*;
use std::test::Fail;
use tim_base::sink::RecordedSink;

// What a batch hands on of pieces, and its rest at the end.
fn handed(alloc: Global, room: usize, most: usize, pieces: &[&str]) -> Result<RecordedSink, Fail> {
    let Ok(mut batch) = Batch::new(alloc, RecordedSink::new(alloc, most), room) else {
        return Err(Fail::new("no memory"));
    };
    for piece in pieces {
        if send(&mut batch, piece.as_bytes()).1.is_err() {
            break;
        }
    }
    Ok(batch.finish().0)
}

// Whether the writes of a sink are these.
fn are(sink: &RecordedSink, writes: &[&str]) -> bool {
    let found = sink.writes();
    if found.len() != writes.len() {
        return false;
    }
    for place in 0..writes.len() {
        if found[place].bytes.as_slice() != writes[place].as_bytes() {
            return false;
        }
    }
    true
}

#[test]
fn lines_go_together_as_far_as_they_fit(rt: HostRuntime) -> Result<(), Fail> {
    let pieces = ["a\nb", "c\n", "defg\n", "h\n", "i"];
    let sink = handed(rt.alloc(), 8, 9, &pieces)?;
    assert!(rt; are(&sink, &["a\nbc\n", "defg\nh\n", "i"]));
    Ok(())
}

#[test]
fn a_line_that_is_longer_goes_alone(rt: HostRuntime) -> Result<(), Fail> {
    let pieces = ["a\n", "bcd", "efg\n", "h\n"];
    let sink = handed(rt.alloc(), 4, 9, &pieces)?;
    assert!(rt; are(&sink, &["a\n", "bcdefg\n", "h\n"]));
    Ok(())
}

#[test]
fn lines_are_handed_on_when_asked(rt: HostRuntime) -> Result<(), Fail> {
    let alloc = rt.alloc();
    let Ok(mut batch) = Batch::new(alloc, RecordedSink::new(alloc, 9), 64) else {
        return Err(Fail::new("no memory"));
    };
    assert!(rt; !batch.waits());
    assert_eq!(rt; send(&mut batch, b"a\nb\nc").1, Ok(()));
    assert!(rt; batch.waits());
    assert_eq!(rt; batch.hand_on(), Ok(()));
    assert!(rt; !batch.waits());
    assert_eq!(rt; batch.hand_on(), Ok(()));
    assert_eq!(rt; send(&mut batch, b"d\n").1, Ok(()));
    let (sink, result) = batch.finish();
    assert_eq!(rt; result, Ok(()));
    assert!(rt; are(&sink, &["a\nb\n", "cd\n"]));
    Ok(())
}

#[test]
fn a_fault_is_told(rt: HostRuntime) -> Result<(), Fail> {
    let alloc = rt.alloc();
    let Ok(mut batch) = Batch::new(alloc, RecordedSink::new(alloc, 1), 4) else {
        return Err(Fail::new("no memory"));
    };
    assert_eq!(rt; send(&mut batch, b"ab\ncd\n").1, Ok(()));
    assert_eq!(rt; batch.hand_on(), Err(SinkFault));
    let (sink, result) = batch.finish();
    assert_eq!(rt; result, Err(SinkFault));
    assert_eq!(rt; sink.writes().len(), 3);
    Ok(())
}
