use crate::line::Line;
use crate::totals::Totals;
use capture::Record;
use std::io;

// A line for each record, and what came in all.
pub(crate) fn show_records(rt: &impl Print, records: &[Record]) -> io::Result<()> {
    let mut totals = Totals::new();
    println!(rt;
        "{:>5}  {:<23}  {:>4}  frame",
        "#", "reading (s since 1970)", "line"
    )?;
    for (number, record) in (1usize..).zip(records) {
        let line = Line::from(record);
        totals.count(line.finding);
        println!(rt; "{number:>5}  {line}")?;
    }
    println!(rt; "{totals}")
}
