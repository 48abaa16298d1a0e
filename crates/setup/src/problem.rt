// What is lent for a job: the columns of its data, and these beside options and sizes once their lengths are known to fit.
ghost use Rattle.std.specs.Prelude.{◌≡◌, ◌*◌, ◌≤◌, ◌<◌, length};
ghost use Rattle.kernel.specs.Place.{place_at};
ghost use Rattle.setup.specs.Data.{data_of};
ghost use Rattle.setup.specs.Data.Trusts.{each};
ghost use Rattle.setup.specs.Shape.{Shaped};
ghost use Rattle.setup.specs.Problem.{sample_of};

use super::Setup;
use kernel::Place;
use std::marker::Model;

// The columns of the data, as they are lent: whatever their lengths.
#[derive(Drop)]
pub struct Columns<'a> {
    pub coords: &'a [f64],
    pub predictors: &'a [f64],
    pub responses: &'a [f64],
    pub trusts: &'a [f64],
}

impl<'a> Model for Columns<'a> {
    ghost use Rattle.setup.specs.Data.{Data, trusted_data};

    ghost Value = { Data };

    ghost view = { λ o. trusted_data o.coords.now o.predictors.now o.responses.now o.trusts.now };
}

// What 000 is handed, its lengths known to fit: options and sizes beside coordinates, predictors and responses. What asks for no trust
// but through the weights works on a sample.
#[derive(Drop)]
pub struct Sample<'a> {
    setup: Setup,
    coords: &'a [f64],
    predictors: &'a [f64],
    responses: &'a [f64],
}

impl<'a> Model for Sample<'a> {
    ghost use Rattle.setup.specs.Data.{data_of};
    ghost use Rattle.setup.specs.Problem.{Posed};
    ghost use Rattle.setup.specs.Shape.{Shaped};

    ghost Value = { Posed };

    ghost view = { λ s. record { setup = s.setup; columns = data_of s.coords.now s.predictors.now s.responses.now } };

    ghost invariant = { λ s. Shaped s.setup (data_of s.coords.now s.predictors.now s.responses.now) };
}

impl<'a> Sample<'a> {
    // The sample of a setup whose lengths the columns have. One by one, since `Columns` have trusts.
    pub fn pose(
        setup: Setup,
        coords: &'a [f64],
        predictors: &'a [f64],
        responses: &'a [f64],
    ) -> Self
        requires { Shaped setup (data_of coords.now predictors.now responses.now) }
        ensures { result ≡ record { setup = setup; columns = data_of coords.now predictors.now responses.now } }
    {
        Sample {
            setup,
            coords,
            predictors,
            responses,
        }
    }

    // Options and sizes. What is known of the lengths of the data is said here.
    pub fn setup(&self) -> Setup
        ensures setup { result ≡ self.now.setup }
        ensures shaped { Shaped self.now.setup self.now.columns }
    {
        let Sample { setup, .. } = self;
        *setup
    }

    pub fn coords(&self) -> &'a [f64]
        ensures coords { result.now ≡ self.now.columns.coords }
        ensures two_each { length result.now ≡ 2 * self.now.setup.n }
        ensures few { self.now.setup.n ≤ 512 }
    {
        self.coords
    }

    pub fn predictors(&self) -> &'a [f64]
        ensures predictors { result.now ≡ self.now.columns.predictors }
        ensures rows { length result.now ≡ self.now.setup.n * self.now.setup.p }
    {
        self.predictors
    }

    pub fn responses(&self) -> &'a [f64]
        ensures { result.now ≡ self.now.columns.responses }
    {
        self.responses
    }
}

// A sample and the trust of each observation: what every local solve works on.
#[derive(Drop)]
pub struct Problem<'a> {
    sample: Sample<'a>,
    trusts: &'a [f64],
}

impl<'a> Model for Problem<'a> {
    ghost use Rattle.std.specs.Prelude.{◌≡◌, length};
    ghost use Rattle.setup.specs.Data.Trusts.{unasked};
    ghost use Rattle.setup.specs.Problem.{Posed, trusting_each};

    ghost Value = { Posed };

    ghost view = { λ p. trusting_each p.trusts.now p.sample };

    ghost invariant = { λ p. (length p.trusts.now ≡ p.sample.setup.n) × (p.sample.columns.trusts ≡ unasked) };
}

impl<'a> Problem<'a> {
    // The problem of a setup whose lengths the data have.
    pub fn pose(setup: Setup, lent: &Columns<'a>) -> Self
        requires { Shaped setup lent.now }
        ensures { result ≡ record { setup = setup; columns = lent.now } }
    {
        Problem {
            sample: Sample::pose(setup, lent.coords, lent.predictors, lent.responses),
            trusts: lent.trusts,
        }
    }

    // The same without its trusts.
    pub fn sample(&self) -> &Sample<'a>
        ensures { result.now ≡ sample_of self.now }
    {
        &self.sample
    }

    // Options and sizes, handed on from the sample, as coordinates are.
    pub fn setup(&self) -> Setup
        ensures setup { result ≡ self.now.setup }
        ensures shaped { Shaped self.now.setup self.now.columns }
    {
        self.sample.setup()
    }

    // Location i.
    pub fn place(&self, i: usize) -> Place
        requires { i < self.now.setup.n }
        ensures { result ≡ place_at self.now.columns.coords i }
    {
        Place::at(self.sample.coords(), i)
    }

    pub fn coords(&self) -> &'a [f64]
        ensures coords { result.now ≡ self.now.columns.coords }
        ensures two_each { length result.now ≡ 2 * self.now.setup.n }
        ensures few { self.now.setup.n ≤ 512 }
    {
        self.sample.coords()
    }

    pub fn trusts(&self) -> &'a [f64]
        ensures trusts { each result.now ≡ self.now.columns.trusts }
        ensures one_each { length result.now ≡ self.now.setup.n }
    {
        self.trusts
    }
}
