/// What is told of each shard of a commit, on the thread that does it.
pub trait ShardGate {
    /// The shard's first store is next.
    fn pass(&self, shard: u32);

    /// The shard's last store is done.
    fn done(&self, shard: u32);
}

/// A gate that does nothing.
#[derive(Clone, Copy)]
pub struct OpenShards;

impl ShardGate for OpenShards {
    #[inline]
    fn pass(&self, _shard: u32) {}

    #[inline]
    fn done(&self, _shard: u32) {}
}
