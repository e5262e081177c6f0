// A sheet and a place in it.
mod bodies;
mod fields;
mod lists;
mod moves;

use words::scan::Scanner;

#[derive(Clone, Copy)]
pub struct Reader<'a> {
    scan: Scanner<'a>,
}
