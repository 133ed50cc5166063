/// Why bytes are not the field that was asked for.
#[derive(Clone, Copy, Debug, PartialEq, Eq)]
pub enum FieldFault {
    /// The bytes end inside the field, at their length. This comes first, also where a byte before is bad.
    Short { at: usize },
    /// The field is not in its range. The place is its first byte. A first byte with which no value
    /// begins stands for the whole field.
    BadField { at: usize },
}
