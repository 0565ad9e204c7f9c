use super::loaded::Loaded;

mod calls;

/// The direct stand: a bench, and the table that is loaded.
#[derive(Drop)]
pub struct Stand<B> {
    bench: B,
    loaded: Option<Loaded>,
}
