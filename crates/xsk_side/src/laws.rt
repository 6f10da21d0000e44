//! The laws of what is possible, each the contract of a function that does nothing. They are stated in `specs/Laws.antt`.

ghost use Rattle.xsk_side.specs.Laws.{FirstParts, WiderKernels, OneHolder, LocalForm};

/// Where calls are possible, so are the first of them.
pub fn first_parts()
    ensures { FirstParts }
{}

/// Where a kernel is bound less, all that was possible still is.
pub fn wider_kernels()
    ensures { WiderKernels }
{}

/// After each history each frame has one holder: a party that has it, or a ring in which it stands and wasn't peeked.
pub fn one_holder()
    ensures { OneHolder }
{}

/// Calls are possible exactly where each fits after those before it.
pub fn local_form()
    ensures { LocalForm }
{}
