// One of two, which is settled when the program runs; more than two are chosen from by nesting.
// An enum and no `dyn`: a boxed heap would be made where one is chosen, and handed out, which the gate refuses.
#[derive(Drop)]
pub enum Choice<A, B> {
    First(A),
    Second(B),
}
