//! The forms of two geometries that are measured.

/// The forms of two geometries, where they were made before.
#[derive(Drop)]
pub struct Forms<'a, F> {
    pub first: Option<&'a F>,
    pub second: Option<&'a F>,
}
