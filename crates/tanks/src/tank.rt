// What a tank holds.
#[derive(Clone, Copy)]
pub struct Tank {
    pub litres: u32,
    // in hundredths of a degree Celsius
    pub set_point: i16,
}
