/// Why a number of a JSON text isn't read.
#[derive(Clone, Copy, Debug, PartialEq, Eq)]
pub enum NumFault {
    /// It isn't whole, nor 11/10.
    Fraction,
    /// It is whole, and 64 bits don't hold it.
    TooLarge,
}
