/// How the program ended.
#[derive(Clone, Copy, Debug, PartialEq, Eq)]
pub enum Status {
    Ok = 0,
    /// The words are none that the program has.
    BadUsage = 2,
    /// The input is no JSON or has another form, or it breaks a limit or names what isn't there.
    BadInput = 3,
    /// A setting of the pool is refused.
    BadConfig = 4,
    /// A making or a call failed as the pool was made.
    PageFault = 5,
    ReadFault = 6,
    WriteFault = 7,
    NoMemory = 8,
    /// The input has more than 67,108,864 bytes.
    TooLong = 9,
}
