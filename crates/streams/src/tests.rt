// Runs of `show_input`: that a call of it can succeed, which no clause says, also by a closure that its call uses up and on more than there is room for;
// and what it answers where the input or the output fails.
use super::*;

// An input that gives three bytes, and then fails.
#[derive(Drop)]
struct Broken {
    given: bool,
}

impl Read for Broken {
    fn read(&mut self, buf: &mut [u8]) -> Result<usize> {
        if self.given || buf.len() < 3 {
            return Err(Error::from(ErrorKind::Other));
        }
        self.given = true;
        buf[..3].copy_from_slice(b"abc");
        Ok(3)
    }
}

#[test]
fn a_closure_shows_what_was_read(rt: HostRuntime) {
    let mut room = [0; 4];
    let mut input: &[u8] = b"abc";
    let mut output: &mut [u8] = &mut room;
    let answer = show_input(&mut input, &mut output, |out, file| write_all(out, file));
    assert_eq!(rt; answer, Ok(()));
    assert_eq!(rt; room, *b"abc\0");
}

// A line that is used up where it is written.
#[derive(Drop)]
struct Line {
    text: [u8; 4],
}

fn written(line: Line, output: &mut impl Write) -> Result<()> {
    write_all(output, &line.text)
}

#[test]
fn a_closure_may_be_used_up(rt: HostRuntime) {
    let mut room = [0; 8];
    let mut input: &[u8] = b"abc";
    let mut output: &mut [u8] = &mut room;
    let line = Line { text: *b"read" };
    let answer = show_input(&mut input, &mut output, |out, file| {
        written(line, out)?;
        write_all(out, file)
    });
    assert_eq!(rt; answer, Ok(()));
    assert_eq!(rt; room, *b"readabc\0");
}

#[test]
fn a_closure_is_handed_no_more_than_there_is_room_for(rt: HostRuntime) {
    let mut seen = 0;
    let mut input = std::io::repeat(7).take(50_000);
    let answer = show_input(&mut input, &mut std::io::sink(), |_, file| {
        seen = file.len();
        Ok(())
    });
    assert_eq!(rt; answer, Ok(()));
    assert_eq!(rt; seen, ROOM);
}

#[test]
fn a_closure_that_fails_is_told_of(rt: HostRuntime) {
    let mut room = [0; 2];
    let mut input: &[u8] = b"abc";
    let mut output: &mut [u8] = &mut room;
    let answer = show_input(&mut input, &mut output, |out, file| write_all(out, file));
    assert_eq!(rt; answer, Err(Failure::Output));
    assert_eq!(rt; room, *b"ab");
}

#[test]
fn an_input_that_fails_is_not_shown(rt: HostRuntime) {
    let mut room = [0; 4];
    let mut called = false;
    let mut input = Broken { given: false };
    let mut output: &mut [u8] = &mut room;
    let answer = show_input(&mut input, &mut output, |out, file| {
        called = true;
        write_all(out, file)
    });
    assert_eq!(rt; answer, Err(Failure::Input));
    assert_eq!(rt; called, false);
    assert_eq!(rt; room, [0; 4]);
}
