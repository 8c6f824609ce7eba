// Tokens that passed check 17.
ghost use Rattle.std.specs.Prelude.{◌≡◌, true};
ghost use Rattle.tallying.specs.Tally.{are_tokens};
ghost use Rattle.tallying.specs.Uses.{tokens_of};

// The context of each token, and its value.
#[derive(Clone, Copy)]
pub struct Tokens<'a> {
    pub contexts: &'a [u32],
    pub values: &'a [u32],
    ghost passed: { are_tokens (tokens_of contexts.now values.now) ≡ true },
}
