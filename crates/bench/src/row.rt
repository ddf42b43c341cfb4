// A row of readings, as the bench prints it.
use std::fmt;

#[derive(Drop)]
pub struct Row<'a> {
    pub readings: &'a [u16],
}

// The readings between brackets, parted by commas.
impl<'a> fmt::Display for Row<'a> {
    fn fmt<W: fmt::Write>(&self, f: &mut fmt::Formatter<W>) -> fmt::Result {
        write!(f, "(")?;
        for (i, reading) in self.readings.iter().enumerate() {
            if i > 0 {
                write!(f, ", ")?;
            }
            write!(f, "{reading}")?;
        }
        write!(f, ")")
    }
}
