/// How the program ended. The numbers are those of `pool_cli`.
#[derive(Clone, Copy, Debug, PartialEq, Eq)]
pub enum Status {
    Ok = 0,
    /// The words are none that the program has.
    BadUsage = 2,
    /// The input isn't one that can be run: it is no JSON, has another form, breaks a limit or names what isn't there.
    BadInput = 3,
    /// The settings of the input break a rule.
    BadConfig = 4,
    /// The input lists a failure without which it can't be run: the making of a region or of an image.
    PageFault = 5,
    ReadFault = 6,
    WriteFault = 7,
    NoMemory = 8,
    /// The input has more than 67,108,864 bytes.
    TooLong = 9,
}
