// A batch's frame in a buffer of its largest size, since a call allocates nothing.
#[derive(Clone, Copy)]
pub struct BatchFrame {
    pub length: usize,
    pub bytes: [u8; 341],
}
