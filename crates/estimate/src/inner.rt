// Inner products, whose sums are taken in order.
ghost use Rattle.std.specs.Prelude.{◌≡◌};
ghost use Rattle.estimate.specs.Inner.{product_sum};

// `start`, and each cell of u times that of v added to it in turn.
#[tactic(auto, unfolding(crate::specs::Inner::product_sum))]
pub fn inner_product(start: f64, u: &[f64], v: &[f64]) -> f64
    ensures { result ≡ product_sum start u.now v.now }
{
    u.iter().zip(v).fold(start, |sum, (a, b)| sum + *a * *b)
}
