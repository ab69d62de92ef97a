/// Why bytes begin no value within the limits. The first faulty head from the left decides, as soon
/// as it is complete; at one head the order is that of the variants.
#[derive(Clone, Copy, Debug)]
pub enum ScanFault {
    /// The byte `c1`, which MessagePack never uses.
    Reserved = 1,
    /// The head of an array or a map, empty or not, inside as many containers as the limit allows.
    TooDeep = 2,
    /// No continuation is a value of at most the limit's number of bytes.
    TooLong = 3,
}
