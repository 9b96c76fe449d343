ghost use Rattle.std.specs.Prelude.{◌≡◌, nat_le};
ghost use Rattle.std.specs.List.{prefix_len};

/// How many pieces are whole in so many bytes, given where each ends.
pub fn whole_pieces(ends: &[usize], sent: usize) -> usize
    ensures { result ≡ prefix_len (λ end. nat_le end sent) ends.now }
{
    ends.iter().take_while(|end| **end <= sent).count()
}
