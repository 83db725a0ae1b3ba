//! The five numbers by which observations change how sure the map is of a voxel.
ghost use Rattle.std.specs.Prelude.{◌≡◌, pos, neg_ℤ, ◌≤ℤ◌, ◌<ℤ◌, ◌↔◌, Some, None, IsOk, IfOk};
ghost use Rattle.std.specs.Prelude.{IfErr};

use crate::conditions::first_bad_field;
use crate::event::{Class, Event};
use thiserror::Error;

/// How observations change the log-odds of a voxel, in thousandths, and how these are read.
///
/// Each model meets `min ≤ 0 ≤ max`, `min < thr ≤ max`, `hit > 0` and `miss < 0`, and no magnitude
/// is above 1,000,000. The names follow the sensor model of Hornung et al. 2013.
#[derive(Clone, Copy, Debug, PartialEq, Eq)]
pub struct OddsModel {
    /// What a hit adds.
    pub hit: i32,
    /// What a miss adds, a negative number.
    pub miss: i32,
    /// No value is below this one.
    pub min: i32,
    /// No value is above this one.
    pub max: i32,
    /// A voxel is occupied where its value is at least this threshold.
    pub thr: i32,
    pub ghost hit_positive: { pos 0 <ℤ hit },
    pub ghost hit_small: { hit ≤ℤ pos 1000000 },
    pub ghost miss_negative: { miss <ℤ pos 0 },
    pub ghost miss_small: { neg_ℤ (pos 1000000) ≤ℤ miss },
    pub ghost min_below: { min ≤ℤ pos 0 },
    pub ghost min_small: { neg_ℤ (pos 1000000) ≤ℤ min },
    pub ghost max_above: { pos 0 ≤ℤ max },
    pub ghost max_small: { max ≤ℤ pos 1000000 },
    pub ghost thr_above: { min <ℤ thr },
    pub ghost thr_below: { thr ≤ℤ max },
}

/// A number of a model.
#[derive(Clone, Copy, Debug, PartialEq, Eq)]
pub enum OddsField {
    Hit,
    Miss,
    Min,
    Max,
    Thr,
}

/// Numbers that make no model. The field is the first one, in the order hit, miss, min, max, thr,
/// whose own condition fails.
#[derive(Clone, Copy, Debug, PartialEq, Eq, Error)]
#[error("the field {which:?} of the log-odds model is out of range")]
pub struct BadModel {
    /// The field whose own condition fails.
    pub which: OddsField,
}

impl OddsModel {
    ghost use Rattle.oct_odds.specs.Odds.{odds, odds_of, IsSound, first_bad_field};
    ghost use Rattle.oct_odds.specs.Update.{applied, class_of, clamped, IsSmallEvent, IsWithin};

    /// A model of these numbers. Refuses exactly where a condition of [`OddsModel`] fails.
    pub fn new(hit: i32, miss: i32, min: i32, max: i32, thr: i32) -> Result<OddsModel, BadModel>
        ensures sound { IsOk result ↔ IsSound (odds hit miss min max thr) }
        ensures ok { IfOk result (λ model. odds_of model ≡ odds hit miss min max thr) }
        ensures none_bad { IfOk result (λ _. first_bad_field (odds hit miss min max thr) ≡ None) }
        ensures first_bad { IfErr result
            (λ e. first_bad_field (odds hit miss min max thr) ≡ Some e.which) }
    {
        match first_bad_field(hit, miss, min, max, thr) {
            Some(which) => Err(BadModel { which }),
            None => Ok(OddsModel {
                hit,
                miss,
                min,
                max,
                thr,
            }),
        }
    }

    /// The value of a voxel after an event, where `None` stands for an unknown voxel.
    pub fn apply(&self, event: Event, value: Option<i32>) -> Option<i32>
        requires event { IsSmallEvent event }
        requires within { IsWithin (odds_of self.now) value }
        ensures exact { result ≡ applied (odds_of self.now) event value }
        ensures within { IsWithin (odds_of self.now) result }
    {
        match event {
            Event::Add(change) => Some(self.clamped(value.unwrap_or(0) + change)),
            Event::Set(new) => Some(self.clamped(new)),
            Event::Forget => None,
            Event::Likely => match value {
                None => None,
                Some(value) if value >= self.thr => Some(self.max),
                Some(_) => Some(self.min),
            },
        }
    }

    /// What a voxel of this value counts as, where `None` stands for an unknown voxel.
    pub fn class(&self, value: Option<i32>) -> Class
        ensures { result ≡ class_of (odds_of self.now) value }
    {
        match value {
            None => Class::Unknown,
            Some(value) if value >= self.thr => Class::Occupied,
            Some(_) => Class::Free,
        }
    }

    /// The nearest value within the bounds.
    fn clamped(&self, value: i32) -> i32
        ensures exact { result ≡ clamped (odds_of self.now) value }
        ensures low { self.now.min ≤ℤ result }
        ensures high { result ≤ℤ self.now.max }
    {
        value.clamp(self.min, self.max)
    }
}

/// A hit adds 0.85, a miss takes off 0.4, the bounds are −2 and 3.5 and the threshold is 0.
///
/// The first four are the example values of Hornung et al. 2013. The threshold, the log-odds of one
/// half, is this project's own choice.
impl Default for OddsModel {
    ghost use Rattle.std.specs.Prelude.{◌≡◌};
    ghost use Rattle.oct_odds.specs.Odds.{odds_of, default_odds};

    ghost is_default = { λ model. odds_of model ≡ default_odds };

    fn default() -> OddsModel {
        OddsModel {
            hit: 850,
            miss: -400,
            min: -2000,
            max: 3500,
            thr: 0,
        }
    }
}
