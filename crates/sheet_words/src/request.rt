// What the text of a sheet says.

// Three numbers, and the words of the form and of the factor.
#[derive(Clone, Copy)]
pub struct Request<'a> {
    pub n: usize,
    pub from: usize,
    pub to: usize,
    pub form: &'a [u64],
    pub factor: &'a [u64],
}
