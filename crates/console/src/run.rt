use crate::line::Line;
use crate::session::Session;
use std::io::Write;

// Prints a line that is no call as it stands: it may be no text.
fn print_remark(rt: &HostRuntime, bytes: &[u8]) -> anyhow::Result<()> {
    let mut out = rt.stdout();
    out.write_all(bytes)?;
    out.write_all(b"\n")?;
    Ok(())
}

// Makes the call of a line, if it is one, and prints the answer.
fn answer<'a>(rt: &HostRuntime, session: &mut Session<'a>, line: &'a Line) -> anyhow::Result<()> {
    match line {
        Line::Remark(bytes) => print_remark(rt, bytes.as_slice())?,
        Line::Call(Ok(call)) => match session.perform(call)? {
            Ok(answer) => println!(rt; "{answer}")?,
            Err(trouble) => println!(rt; "{trouble}")?,
        },
        Line::Call(Err(reason)) => println!(rt; "{reason}")?,
    }
    Ok(())
}

// Makes all calls, one after the other, and prints their answers.
fn answer_all<'a>(
    rt: &HostRuntime,
    session: &mut Session<'a>,
    lines: &'a [Line],
) -> anyhow::Result<()> {
    // a loop, since the borrow checker does not cover this closure of `try_for_each`
    for line in lines {
        answer(rt, session, line)?;
    }
    Ok(())
}

// Answers all lines in one session.
pub fn run(rt: &HostRuntime, lines: &[Line]) -> anyhow::Result<()> {
    let mut session = Session::new(rt.alloc())?;
    let outcome = answer_all(rt, &mut session, lines);
    session.close();
    outcome
}
