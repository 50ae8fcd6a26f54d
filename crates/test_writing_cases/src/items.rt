// Items to append.
use call_append::{Single, Variable};

pub const SINGLE: Single = Single {
    namespace: 1,
    kind: 0x01,
    span: 1,
    chunk: 255,
    key: [0x6B; 16],
    bytes: [0x42; 8],
};

pub const DATA: Variable = Variable {
    namespace: 1,
    kind: 0x21,
    chunk: 255,
    key: [0x76; 16],
};
