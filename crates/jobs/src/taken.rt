// A job taken apart.
use shelf::Call;

// The calls that a job's commands spell, and the place where it is refused, if it is.
#[derive(Drop)]
pub struct Job<'a> {
    pub calls: Vec<Call<'a>>,
    pub bad: Option<usize>,
}
