//! The shared words under their rule.
use crate::known::{ScreenSetting, View};
use atomic_table::{Table, TableRule};
use qws_base::{Depth, Size};
use std::alloc::Global;
use std::marker::Model;

/// The rule of the shared words.
pub struct WordRule;

impl TableRule<(), View, ScreenSetting> for WordRule {
    ghost use Rattle.fb_words.specs.Rule.{Holds, opening_view};

    ghost holds = { Holds };

    ghost first = { opening_view };
}

/// The shared words of one screen: the gate, the published table, the saved cells and the framebuffer. Contracts see which
/// words they are, and the screen's setting.
#[derive(Drop)]
pub struct Screen {
    pub(crate) setting: ScreenSetting,
    pub(crate) table: Table<(), View, ScreenSetting, WordRule, Global>,
}

impl Model for Screen {
    ghost use Rattle.std.specs.Prelude.{◌≡◌, ◌+◌};
    ghost use Rattle.qws_base.specs.Points.{pixel_count};
    ghost use Rattle.fb_words.specs.Views.{ScreenView};
    ghost use Rattle.region_table.specs.Numbers.{first_pixel};

    ghost Value = { ScreenView };

    ghost view = { λ s. record { table = s.table.shared.table_id; setting = s.setting } };

    ghost invariant = { λ s. (s.setting ≡ s.table.shared.key) × (s.table.shared.table_id.words ≡ first_pixel + pixel_count s.setting.size) × (s.table.shared.table_id.slots ≡ 0) };
}

impl Screen {
    ghost use Rattle.std.specs.Prelude.{◌≡◌};

    /// The size that it was made with.
    pub fn size(&self) -> Size
        ensures { result ≡ self.now.setting.size }
    {
        self.setting.size
    }

    /// The depth that it was made with.
    pub fn depth(&self) -> Depth
        ensures { result ≡ self.now.setting.depth }
    {
        self.setting.depth
    }
}
