//! Each port once, each failing call in turn.
use ppm_ports::{
    Failed, MemorySink, MemorySource, ReadError, Recorder, Silent, Sink, Source, StdSink,
    StdSource, Watch, read_whole, write_whole,
};
use ppm_words::Event;
use std::alloc::Global;
use std::io::{Error, ErrorKind, Read, Write};
use std::test::Fail;

const TEXT: &[u8] = b"abcde";

fn source(alloc: Global, most: usize, failing: &[u64]) -> Result<MemorySource, Fail> {
    let bytes = TEXT.to_vec(alloc)?;
    Ok(MemorySource::new(bytes, most.max(1), failing.to_vec(alloc)?))
}

fn sink(alloc: Global, room: usize, most: usize, failing: &[u64]) -> Result<MemorySink, Fail> {
    let failing = failing.to_vec(alloc)?;
    Ok(MemorySink::new(alloc, room, most.max(1), failing).map_err(|_| "memory")?)
}

#[test]
fn a_source_gives_pieces(rt: HostRuntime) -> Result<(), Fail> {
    let mut source = source(rt.alloc(), 2, &[1])?;
    let mut buf = [0u8; 4];
    let answers = [Ok(2), Err(Failed), Ok(2), Ok(1), Ok(0)];
    for answer in answers {
        assert_eq!(rt; source.read(&mut buf), answer);
    }
    assert_eq!(rt; source.faults(), 1);
    assert_eq!(rt; buf.as_slice(), b"ed\0\0".as_slice());
    Ok(())
}

#[test]
fn an_input_is_read_whole(rt: HostRuntime) -> Result<(), Fail> {
    let alloc = rt.alloc();
    let cases = [
        (1, 9, "abcde"),
        (1, 5, "abcde"),
        (3, 5, "abcde"),
        (1, 4, "abcde"),
        (3, 3, "abcd"),
        (9, 0, "a"),
    ];
    for (most, limit, want) in cases {
        let text = read_whole(alloc, &mut source(alloc, most, &[])?, limit)?;
        assert_eq!(rt;
            text.as_slice(),
            want.as_bytes(),
            "{most} a call, limit {limit}"
        );
    }
    for call in 0..6 {
        let mut failing = source(alloc, 1, &[call])?;
        let answer = read_whole(alloc, &mut failing, 9).map(|_| ());
        assert_eq!(rt; answer, Err(ReadError::Failed), "call {call}");
        assert_eq!(rt; failing.faults(), 1);
    }
    Ok(())
}

#[test]
fn an_output_is_written_whole(rt: HostRuntime) -> Result<(), Fail> {
    let alloc = rt.alloc();
    let mut whole = sink(alloc, 5, 1, &[])?;
    assert_eq!(rt; write_whole(&mut whole, TEXT), Ok(()));
    assert_eq!(rt; whole.bytes(), TEXT);
    let cases = [(0, ""), (1, "a"), (2, "ab"), (3, "abc"), (4, "abcd")];
    for (call, front) in cases {
        let mut part = sink(alloc, 5, 1, &[call])?;
        assert_eq!(rt; write_whole(&mut part, TEXT), Err(Failed), "call {call}");
        assert_eq!(rt; part.bytes(), front.as_bytes());
        assert_eq!(rt; part.faults(), 1);
    }
    let mut full = sink(alloc, 3, 2, &[])?;
    assert_eq!(rt; write_whole(&mut full, TEXT), Err(Failed));
    assert_eq!(rt; full.bytes(), b"abc".as_slice());
    Ok(())
}

/// A stream that fails at each read, and takes none of what is written.
#[derive(Drop)]
struct Broken;

impl Read for Broken {
    fn read(&mut self, buf: &mut [u8]) -> std::io::Result<usize> {
        let _ = buf;
        Err(Error::from(ErrorKind::BrokenPipe))
    }
}

impl Write for Broken {
    fn write(&mut self, buf: &[u8]) -> std::io::Result<usize> {
        let _ = buf;
        Ok(0)
    }

    fn flush(&mut self) -> std::io::Result<()> {
        Ok(())
    }
}

#[test]
fn streams_are_ports(rt: HostRuntime) -> Result<(), Fail> {
    let alloc = rt.alloc();
    let text = read_whole(alloc, &mut StdSource::new(TEXT), 9)?;
    assert_eq!(rt; text.as_slice(), TEXT);
    let mut sink = StdSink::new(Vec::<u8>::new(alloc));
    assert_eq!(rt; write_whole(&mut sink, TEXT), Ok(()));
    assert_eq!(rt; sink.faults(), 0);
    let mut broken = StdSource::new(Broken);
    assert_eq!(rt; broken.read(&mut [0u8; 4]), Err(Failed));
    assert_eq!(rt; broken.faults(), 1);
    let mut blocked = StdSink::new(Broken);
    assert_eq!(rt; blocked.write(TEXT), Err(Failed));
    assert_eq!(rt; blocked.write(b""), Ok(0));
    assert_eq!(rt; blocked.faults(), 1);
    Ok(())
}

#[test]
fn a_recorder_keeps_events(rt: HostRuntime) -> Result<(), Fail> {
    let first = Event {
        step: 1,
        place: 0,
        word: 7,
        value: 9,
    };
    let mut recorder = Recorder::new(rt.alloc());
    assert!(rt; recorder.turn(first).is_ok());
    assert!(rt; recorder.turn(Event { step: 2, ..first }).is_ok());
    assert_eq!(rt; recorder.events().len(), 2);
    assert_eq!(rt; recorder.events()[0], first);
    assert!(rt; Silent.turn(first).is_ok());
    Ok(())
}
