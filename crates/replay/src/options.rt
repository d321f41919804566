use anyhow::bail;
use common::IdCode;
use listing::Waits;
use std::env;

// The code that the combined stream is sent under.
pub const COMBINED: IdCode = IdCode(1);

// What is printed: tables, or the combined stream as a hex dump, one frame a line.
#[derive(Clone, Copy)]
pub enum Output {
    Table,
    Hex,
}

// What the capture is played through: one concentrator, or two of them under a third.
// Chosen by a word, and asked for once.
#[derive(Clone, Copy)]
pub enum Form {
    Single,
    Stack,
}

// What the arguments ask for.
#[derive(Clone, Copy)]
pub struct Options {
    pub waits: Waits,
    pub output: Output,
    pub form: Form,
}

impl Options {
    // The options that the program's arguments give.
    pub fn read(rt: &HostRuntime) -> anyhow::Result<Options> {
        let mut waits = Waits::usual();
        let mut output = Output::Table;
        let mut form = Form::Single;
        let mut words = env::args(rt)?;
        let _program = words.next();
        while let Some(word) = words.next() {
            match word.as_str() {
                "--hex" => output = Output::Hex,
                "--stack" => form = Form::Stack,
                other => {
                    if !waits.take(other, &mut words)? {
                        bail!(
                            "usage: replay [--wait MICROSECONDS] [--relative MICROSECONDS] [--stack] [--hex] < CAPTURE"
                        );
                    }
                }
            }
        }
        Ok(Options {
            waits,
            output,
            form,
        })
    }
}
