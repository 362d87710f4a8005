//! The number of each node's round.

ghost use Rattle.std.specs.Prelude.{◌<◌, length};
ghost use Rattle.std.specs.List.{All};
ghost use Rattle.mq_levels.specs.Numbers.{AreMarked};

/// Gives each of `nodes` the number.
pub fn mark(nodes: &[u32], number: u32, numbers: &mut [Option<u32>])
    requires { All (λ node. node < length numbers.old) nodes.now }
    ensures { AreMarked nodes.now number numbers.old numbers.new }
{
    for node in nodes {
        numbers[*node as usize] = Some(number);
    }
}
