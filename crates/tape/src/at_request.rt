// A reader at one request: an entry is its value there.
#[derive(Clone, Copy)]
pub struct AtRequest {
    pub request: u32,
}
